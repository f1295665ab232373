//! Scripts that read LEF texts.

use super::{plain, run};
use std::alloc::Global;
use std::process::Abort;
use std::test::Fail;

/// What the file `f` holds, a script, and its replies.
struct Row {
    text: &'static [u8],
    script: &'static [u8],
    replies: &'static [u8],
}

const ROWS: [Row; 11] = [
    // A site and a cell on it, with decimals that are rounded.
    Row {
        text: b"UNITS DATABASE MICRONS 1000 ; END UNITS SITE s CLASS CORE ; SIZE 0.46 BY 2.72 ; END s MACRO m ORIGIN -0.0005 0.0004 ; SITE s ; SIZE 1.38 BY 2.72 ; END m END LIBRARY",
        script: b"read_lef f\nnew_inst i m\nread_lef f\nsave g\nload g\nlist inst\n",
        replies: b"ok 0 0 1 1 0\nok 1 1 0 0 0\nok 0 0 0 0 2\nok 241\nok 241\nok 1\n1 i\n",
    },
    // A second macro of a name is left out, and a statement that isn't known is passed over.
    Row {
        text: b"MACRO m END m MACRO m END m FROB x ; END LIBRARY",
        script: b"read_lef f\n",
        replies: b"ok 0 0 0 1 2\n",
    },
    // Distances before units.
    Row {
        text: b"SITE s CLASS CORE ; SIZE 1 BY 1 ; END s",
        script: b"read_lef f\nunits 100\nread_lef f\nread_lef f\n",
        replies: b"refused 28 LefBuild NoUnits\nok 0\nok 0 0 1 0 0\nok 0 0 0 0 1\n",
    },
    // Units that stand, and a layer and a site that don't. A refusal enters nothing.
    Row {
        text: b"UNITS DATABASE MICRONS 100 ; END UNITS MACRO m OBS LAYER a ; RECT 0 0 1 1 ; END SITE s ; END m",
        script: b"units 200\nread_lef f\n",
        replies: b"ok 0\nrefused 28 LefBuild UnitsChanged 200 100\n",
    },
    Row {
        text: b"UNITS DATABASE MICRONS 100 ; END UNITS MACRO m OBS LAYER a ; RECT 0 0 1 1 ; END SITE s ; END m",
        script: b"read_lef f\nlayer a ROUTING\nread_lef f\nsite s CORE 1 1\nread_lef f\nunits 200\n",
        replies: b"refused 28 LefBuild UnknownLayer a\nok 1\nrefused 28 LefBuild UnknownSite s\nok 1\nok 0 0 0 1 0\nrefused 28 LefBuild UnitsChanged 100 200\n",
    },
    Row {
        text: b"UNITS DATABASE MICRONS 100 ; END UNITS\nSITE s SIZE 1 BY -1 ; END s",
        script: b"read_lef f\nunits 200\n",
        replies: b"refused 28 LefBuild BadValue s\nok 0\n",
    },
    // Faults of the text, each on its line.
    Row {
        text: b"MACRO m",
        script: b"read_lef f\n",
        replies: b"refused 27 LefText 1 Cut\n",
    },
    Row {
        text: b"MACRO m\n \"",
        script: b"read_lef f\neco_begin\nread_lef f\nread_lef g\neco_undo\nread_lef g\n",
        replies: b"refused 27 LefText 2 OpenQuote\nok\nrefused 24 WrongState Open\nrefused 24 WrongState Open\nok 0\nrefused 25 NoFile\n",
    },
    // The word of an orientation names no via, so it is no name.
    Row {
        text: b"VIA N END N",
        script: b"read_lef f\n",
        replies: b"refused 27 LefText 1 BadName\n",
    },
    // The lines that enter parts.
    Row {
        text: b"",
        script: b"units 0\nunits 100\nunits 100\nunits 200\nlayer a ROUTING\nlayer b CUT\nlayer a CUT\nlayer c FROB\nsite s CORE 2 3\nsite s CORE 2 3\nread_lef f\n",
        replies: b"refused 28 LefBuild BadPart 1\nok 0\nok 0\nrefused 28 LefBuild UnitsChanged 100 200\nok 1\nok 2\nrefused 28 LefBuild NameTaken 1\nrefused 22 BadWords\nok 1\nrefused 28 LefBuild NameTaken 1\nok 0 0 0 0 0\n",
    },
    // The saved bytes of a technology: units, a layer, no via, and a site.
    Row {
        text: b"",
        script: b"units 1000\nlayer m ROUTING\nsite s CORE 2 3\nsave -\n",
        replies: b"ok 0\nok 1\nok 1\nok 186 4f44425301000000e803000001000000010000006d01000000000000000000000000000000000000000000010000000100000073010002000000030000000000000000000000010000002f020000005b5d000000000000000000000000000000000000000000000000000000000000000000000000000000000000000000000000000000000000000000000000000000000000000000000000000000000000000000000000000000000000000000000000000000000000000000\n",
    },
];

fn answers(rt: &impl Abort, alloc: Global, row: &Row) -> Result<(), Fail> {
    let outcome = run(alloc, plain(1000), row.script, row.text)?;
    assert!(rt; outcome.replies.as_slice() == row.replies);
    Ok(())
}

#[test]
fn lef_files_are_read(rt: HostRuntime) -> Result<(), Fail> {
    for row in ROWS.iter() {
        answers(&rt, rt.alloc(), row)?;
    }
    Ok(())
}
