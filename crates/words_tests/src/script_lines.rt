use bitflags::Flags;
use edit_words::Edit;
use library::Master;
use script_words::{Command, FileName, command};
use std::alloc::{AllocError, Global};
use std::process::Abort;
use std::str::from_utf8;
use std::test::Fail;
use tech::{Layer, Site};

fn shown(text: &[u8]) -> &str {
    from_utf8(text).unwrap_or("no text")
}

// What a line asks for, in words that are no line: each value beside its name.
fn told(alloc: Global, line: &str) -> Result<String, Fail> {
    let mut out = String::new(alloc);
    tell(alloc, &mut out, line)?;
    Ok(out)
}

fn tell(alloc: Global, out: &mut String, line: &str) -> Result<(), AllocError> {
    match command(alloc, line.as_bytes()) {
        Ok(None) => out.push_str("nothing"),
        Ok(Some(command)) => {
            let told = tell_command(out, &command);
            drop(command);
            told
        }
        Err(fault) => write!(out, "{fault:?}"),
    }
}

fn tell_command(out: &mut String, command: &Command) -> Result<(), AllocError> {
    match command {
        Command::Edit(edit) => tell_edit(out, edit),
        Command::Units(units) => write!(out, "Units {units}"),
        Command::Layer(layer) => tell_layer(out, layer),
        Command::Site(site) => tell_site(out, site),
        Command::Master(master) => tell_master(out, master),
        Command::Find { kind, name } => {
            write!(out, "Find {kind:?} name={}", shown(name.bytes()))
        }
        Command::List { kind } => write!(out, "List {kind:?}"),
        Command::Free { kind } => write!(out, "Free {kind:?}"),
        Command::Counts => out.push_str("Counts"),
        Command::Terms { net } => write!(out, "Terms net={net}"),
        Command::SaveShown => out.push_str("SaveShown"),
        Command::EcoBegin => out.push_str("EcoBegin"),
        Command::EcoUndo => out.push_str("EcoUndo"),
        Command::ReadLef { file } => tell_file(out, "ReadLef", file),
        Command::Save { file } => tell_file(out, "Save", file),
        Command::Load { file } => tell_file(out, "Load", file),
    }
}

fn tell_file(out: &mut String, verb: &str, file: &FileName) -> Result<(), AllocError> {
    write!(out, "{verb} file={}", file.as_str())
}

fn tell_edit(out: &mut String, edit: &Edit) -> Result<(), AllocError> {
    match edit {
        Edit::NewInst { name, master } => {
            let (name, master) = (shown(name.bytes()), shown(master.bytes()));
            write!(out, "NewInst name={name} master={master}")
        }
        Edit::NewNet { name } => write!(out, "NewNet name={}", shown(name.bytes())),
        Edit::NewBTerm { name, net } => {
            write!(out, "NewBTerm name={} net={net:?}", shown(name.bytes()))
        }
        Edit::NewRow {
            name,
            site,
            x,
            y,
            orientation,
            sites,
        } => {
            let (name, site) = (shown(name.bytes()), shown(site.bytes()));
            write!(
                out,
                "NewRow name={name} site={site} x={x} y={y} {orientation:?} {sites:?}"
            )
        }
        Edit::Rename { kind, id, name } => {
            write!(out, "Rename {kind:?} id={id} name={}", shown(name.bytes()))
        }
        Edit::Swap { inst, master } => {
            write!(out, "Swap inst={inst} master={}", shown(master.bytes()))
        }
        other => tell_numbers(out, other),
    }
}

// The edits without names.
fn tell_numbers(out: &mut String, edit: &Edit) -> Result<(), AllocError> {
    match edit {
        Edit::Destroy { kind, id } => write!(out, "Destroy {kind:?} id={id}"),
        Edit::Place {
            kind,
            id,
            status,
            x,
            y,
            orientation,
        } => write!(
            out,
            "Place {kind:?} id={id} {status:?} x={x} y={y} {orientation:?}"
        ),
        Edit::SetUse { kind, id, usage } => write!(out, "SetUse {kind:?} id={id} {usage:?}"),
        Edit::SetDir { bterm, direction } => write!(out, "SetDir bterm={bterm} {direction:?}"),
        Edit::MakeSpecial { net } => write!(out, "MakeSpecial net={net}"),
        Edit::Join { kind, id, net } => write!(out, "Join {kind:?} id={id} net={net}"),
        Edit::Part { kind, id } => write!(out, "Part {kind:?} id={id}"),
        _ => out.push_str("with names"),
    }
}

fn tell_layer(out: &mut String, layer: &Layer) -> Result<(), AllocError> {
    let name = shown(layer.name.bytes());
    let (sort, direction) = (layer.sort, layer.direction);
    write!(out, "Layer name={name} {sort:?} {direction:?} ")?;
    let (x, y) = (layer.pitch_x, layer.pitch_y);
    let (width, spacing) = (layer.width, layer.spacing);
    write!(out, "pitch={x},{y} width={width} spacing={spacing}")
}

fn tell_site(out: &mut String, site: &Site) -> Result<(), AllocError> {
    let name = shown(site.name.bytes());
    let (class, symmetry) = (site.class, site.symmetry.bits());
    let (width, height) = (site.width, site.height);
    write!(
        out,
        "Site name={name} {class:?} {width}x{height} symmetry={symmetry}"
    )
}

fn tell_master(out: &mut String, master: &Master) -> Result<(), AllocError> {
    let name = shown(master.name.bytes());
    write!(out, "Master name={name} {}x{}", master.width, master.height)?;
    for terminal in master.terminals.items() {
        let name = shown(terminal.name.bytes());
        write!(out, ", {name} {:?}", terminal.direction)?;
    }
    Ok(())
}

fn expect_told(rt: &impl Abort, alloc: Global, rows: &[(&str, &str)]) -> Result<(), Fail> {
    for (line, expected) in rows.iter() {
        let told = told(alloc, *line)?;
        assert_eq!(rt; told.as_str(), *expected, "at {line}");
    }
    Ok(())
}

#[test]
fn lines_and_what_they_ask_for(rt: HostRuntime) -> Result<(), Fail> {
    expect_told(
        &rt,
        rt.alloc(),
        &[
            ("", "nothing"),
            (" \t ", "nothing"),
            ("# place", "nothing"),
            ("\t#place", "nothing"),
            ("new_inst u1 INVX1", "NewInst name=u1 master=INVX1"),
            (" new_net\t\tclk ", "NewNet name=clk"),
            ("new_net *", "NewNet name=*"),
            ("new_bterm a", "NewBTerm name=a net=None"),
            ("new_bterm a 7", "NewBTerm name=a net=Some(7)"),
            (
                "new_row r unit 0 -2720 FS",
                "NewRow name=r site=unit x=0 y=-2720 FS One",
            ),
            (
                "new_row r unit 1 2 N 3 4",
                "NewRow name=r site=unit x=1 y=2 N Counted { nx: 3, ny: 4 }",
            ),
            (
                "new_row r unit 1 2 N 3 4 460 -5",
                "NewRow name=r site=unit x=1 y=2 N Stepped { nx: 3, ny: 4, sx: 460, sy: -5 }",
            ),
            ("destroy iterm 1", "Destroy ITerm id=1"),
            ("rename net 2 -", "Rename Net id=2 name=-"),
            ("swap 3 NAND2", "Swap inst=3 master=NAND2"),
            (
                "place inst 1 PLACED 10 -20 FN",
                "Place Inst id=1 Placed x=10 y=-20 FN",
            ),
            ("set_use net 1 CLOCK", "SetUse Net id=1 Clock"),
            ("set_use bterm 1 -", "SetUse BTerm id=1 None"),
            ("set_dir 1 TRISTATE", "SetDir bterm=1 Tristate"),
            ("make_special 0", "MakeSpecial net=0"),
            ("join iterm 4 5", "Join ITerm id=4 net=5"),
            ("part bterm 6", "Part BTerm id=6"),
            ("units 2000", "Units 2000"),
            (
                "layer met1 ROUTING",
                "Layer name=met1 Routing None pitch=0,0 width=0 spacing=0",
            ),
            (
                "layer m2 other",
                "Layer name=m2 Other None pitch=0,0 width=0 spacing=0",
            ),
            (
                "site unit CORE 460 -2720",
                "Site name=unit Core 460x-2720 symmetry=0",
            ),
            ("site io PAD 0 1", "Site name=io Pad 0x1 symmetry=0"),
            ("master FILL 0 -1", "Master name=FILL 0x-1"),
            (
                "master INVX1 380 1400 A INPUT Y OUTPUT VDD -",
                "Master name=INVX1 380x1400, A Input, Y Output, VDD None",
            ),
            ("read_lef cells.lef", "ReadLef file=cells.lef"),
            ("find net clk", "Find Net name=clk"),
            ("find group *", "Find Group name=*"),
            ("list pin", "List Pin"),
            ("free wire", "Free Wire"),
            ("counts", "Counts"),
            ("terms 1", "Terms net=1"),
            ("save -", "SaveShown"),
            ("save f", "Save file=f"),
            ("save 0_a.b-C", "Save file=0_a.b-C"),
            ("load f.odb", "Load file=f.odb"),
            ("eco_begin", "EcoBegin"),
            ("eco_undo", "EcoUndo"),
        ],
    )
}

#[test]
fn lines_that_are_no_command(rt: HostRuntime) -> Result<(), Fail> {
    expect_told(
        &rt,
        rt.alloc(),
        &[
            ("New_net clk", "UnknownCommand"),
            ("new_netx clk", "UnknownCommand"),
            ("eco_begin\r", "UnknownCommand"),
            ("new_inst u1", "BadWords"),
            ("new_net a b", "BadWords"),
            ("new_bterm a 1 2", "BadWords"),
            ("new_bterm a -1", "BadWords"),
            ("new_row r unit 0 0", "BadWords"),
            ("new_row r unit 0 0 N 1", "BadWords"),
            ("new_row r unit 0 0 N 1 1 5", "BadWords"),
            ("new_row r unit 0 0 N 1 1 5 5 5", "BadWords"),
            ("destroy Inst 1", "BadWords"),
            ("place inst 1 PLACED 10 20 north", "BadWords"),
            ("set_use net 1 NONE", "BadWords"),
            ("set_dir 1 OUTPUT TRISTATE", "BadWords"),
            ("units", "BadWords"),
            ("units 1 1", "BadWords"),
            ("units -1", "BadWords"),
            ("layer met1", "BadWords"),
            ("layer met1 CUT 0", "BadWords"),
            ("layer a* CUT", "BadWords"),
            ("layer met1 -", "BadWords"),
            ("layer met1 none", "BadWords"),
            ("layer met1 OTHER", "BadWords"),
            ("site unit CORE 460", "BadWords"),
            ("site unit CORE 460 2720 Y", "BadWords"),
            ("site ; CORE 460 2720", "BadWords"),
            ("site unit - 460 2720", "BadWords"),
            ("site unit 460 2720 CORE", "BadWords"),
            ("master a* 1 1", "BadWords"),
            ("master A 1 1 - INPUT", "BadWords"),
            ("master A 1 1 Y", "BadWords"),
            ("find pin a", "BadWords"),
            ("list", "BadWords"),
            ("counts inst", "BadWords"),
            ("save", "BadWords"),
            ("save - -", "BadWords"),
            ("save .f", "BadWords"),
            ("save -f", "BadWords"),
            ("save a/f", "BadWords"),
            ("save f g", "BadWords"),
            ("load", "BadWords"),
            ("load -", "BadWords"),
            ("read_lef", "BadWords"),
            ("read_lef -", "BadWords"),
            ("read_lef a b", "BadWords"),
        ],
    )
}

#[test]
fn numbers_at_their_limits(rt: HostRuntime) -> Result<(), Fail> {
    expect_told(
        &rt,
        rt.alloc(),
        &[
            ("terms 4294967295", "Terms net=4294967295"),
            ("terms 4294967296", "BadWords"),
            (
                "place pin 0 FIXED 999999999999999999 -999999999999999999 N",
                "Place Pin id=0 Fixed x=999999999999999999 y=-999999999999999999 N",
            ),
            ("place pin 0 FIXED 1000000000000000000 0 N", "BadWords"),
            ("place pin 0 FIXED 0 -1000000000000000000 N", "BadWords"),
            ("units 4294967295", "Units 4294967295"),
            ("units 4294967296", "BadWords"),
            (
                "site s CORE -2147483648 2147483647",
                "Site name=s Core -2147483648x2147483647 symmetry=0",
            ),
            ("site s CORE 2147483648 0", "BadWords"),
            ("site s CORE 0 -2147483649", "BadWords"),
            ("terms 01", "BadWords"),
            ("terms -0", "BadWords"),
            ("terms +1", "BadWords"),
            ("terms -", "BadWords"),
            ("terms 1a", "BadWords"),
            (
                "master A 2147483647 -2147483648",
                "Master name=A 2147483647x-2147483648",
            ),
            ("master A 2147483648 0", "BadWords"),
            ("master A 0 -2147483649", "BadWords"),
        ],
    )
}
