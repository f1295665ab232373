//! Texts and what is read of them.

use lef_reader::LefKind;

/// What is read of a text.
#[derive(Clone, Copy)]
pub enum Read {
    /// The tree as `shown` has it, and how many parts were passed over or left out.
    Tree(&'static str, u64),
    /// A fault on this line.
    Fault(u64, LefKind),
}

/// A text and what is read of it.
pub struct Row {
    pub text: &'static [u8],
    pub read: Read,
}

pub const ROWS: [Row; 57] = [
    // Units and layers.
    Row {
        text: b"",
        read: Read::Tree("", 0),
    },
    Row {
        text: b"END LIBRARY what \"ever",
        read: Read::Tree("", 0),
    },
    Row {
        text: b"VERSION 5.8 ; END LIBRARY",
        read: Read::Tree("", 1),
    },
    Row {
        text: b"UNITS TIME NANOSECONDS 1 ; DATABASE MICRONS 1000 ; DATABASE MICRONS 02000 ; END UNITS",
        read: Read::Tree("units 2000 /", 1),
    },
    Row {
        text: b"UNITS DATABASE MICRONS ; DATABASE NANOS 5 ; END UNITS",
        read: Read::Tree("", 2),
    },
    Row {
        text: b"UNITS DATABASE MICRONS 100000 ; END UNITS",
        read: Read::Tree("units 100000 /", 0),
    },
    Row {
        text: b"LAYER m1 TYPE ROUTING ; DIRECTION HORIZONTAL ; PITCH 0.46 ; WIDTH 0.14 ; SPACING 0.2 ; END m1",
        read: Read::Tree("layer m1 1 1 0.46 0.46 0.14 0.2 /", 0),
    },
    Row {
        text: b"LAYER END TYPE CUT ; TYPE other ; TYPE FROB ; DIRECTION - ; DIRECTION DIAG45 ; PITCH 1 2 ; WIDTH 1 ; WIDTH +.2 ; END END",
        read: Read::Tree("layer END 2 0 1 2 +.2 - /", 4),
    },
    Row {
        text: b"LAYER m SPACING 1 RANGE 2 3 ; SPACING ; SPACING 4 ; SPACINGTABLE 1 ; PITCH ; PITCH 1 2 3 ; END m",
        read: Read::Tree("layer m 0 0 - - - 1 /", 4),
    },
    Row {
        text: b"LAYER m ACCURRENTDENSITY PEAK FREQUENCY 1 ; WIDTH x ; TABLEENTRIES 9 ; WIDTH 3 ; END m",
        read: Read::Tree("layer m 0 0 - - 3 - /", 1),
    },
    Row {
        text: b"LAYER m DCCURRENTDENSITY AVERAGE CUTAREA 1 ; WIDTH 1 ; TYPE CUT ; WIDTH 2 ; DCCURRENTDENSITY AVERAGE 3 ; WIDTH 4 ; DCCURRENTDENSITY ; END m",
        read: Read::Tree("layer m 2 0 - - 4 - /", 3),
    },
    Row {
        text: b"LAYER m VIARULE r END r ; PROPERTY LEF58_TYPE \"TYPE ; x\" ; BEGINEXT \"t\" END m ; ENDEXT END m LAYER m END m",
        read: Read::Tree("layer m 0 0 - - - - /layer m 0 0 - - - - /", 3),
    },
    Row {
        text: b"PROPERTYDEFINITIONS LAYER END x END PROPERTYDEFINITIONS SPACING END END SPACING VIARULE END x END END NONDEFAULTRULE ; END END ; ARRAY a END b END a BEGINEXT END LIBRARY ENDEXT LAYER ; SITE ; END LIBRARY",
        read: Read::Tree("", 8),
    },
    // Vias and sites.
    Row {
        text: b"VIA v DEFAULT LAYER m1 ; RECT -1 -2 3 4 ; RECT MASK 1 5 6 7 8 ; LAYER m2 ; RECT 1 1 0 0 ; END v",
        read: Read::Tree("via v default m1 -1 -2 3 4 m1 5 6 7 8 m2 1 1 0 0 /", 0),
    },
    Row {
        text: b"VIA v GENERATED TOPOFSTACKONLY VIARULE r ; LAYER m1 m2 ; LAYER m1 ; POLYGON 1 1 2 2 ; RECT 1 2 3 ; RECT 1 ; RECT 1 2 3 4 5 ; END v",
        read: Read::Tree("via v /", 6),
    },
    Row {
        text: b"VIA v TOPOFSTACKONLY DEFAULT ; END v VIA END END END VIA DEFAULT END DEFAULT",
        read: Read::Tree("via v /via END /via DEFAULT /", 1),
    },
    Row {
        text: b"VIA ; VIA n LAYER N ; RECT 0 0 1 1 ; END n LAYER N END N SITE FS END FS MACRO S PIN W END W END S",
        read: Read::Tree(
            "via n N 0 0 1 1 /layer N 0 0 - - - - /site FS 1 0 - - /macro S  - - - - 0 -  pin W 0 0 obs /",
            1,
        ),
    },
    Row {
        text: b"SITE core CLASS CORE ; SYMMETRY Y ; SYMMETRY R90 X X ; SIZE 0.46 BY 2.72 ; END core",
        read: Read::Tree("site core 1 5 0.46 2.72 /", 0),
    },
    Row {
        text: b"SITE s CLASS PAD ; CLASS COVER ; SYMMETRY X Z ; SYMMETRY ; SIZE 1 2 ; ROWPATTERN a N ; END s",
        read: Read::Tree("site s 2 0 - - /", 5),
    },
    Row {
        text: b"SITE s END s SITE s SIZE 1 BY 1 ; SIZE 2 BY 3 ; END s",
        read: Read::Tree("site s 1 0 - - /site s 1 0 2 3 /", 0),
    },
    // Macros and pins.
    Row {
        text: b"MACRO m CLASS CORE SPACER ; FOREIGN m 1 2 N ; ORIGIN -0.5 1 ; SIZE 1.38 BY 2.72 ; SYMMETRY X Y R90 ; SITE core ; SITE other 0 0 N ; END m",
        read: Read::Tree(
            "macro m CORE SPACER -0.5 1 1.38 2.72 7 core m 1 2 N obs /",
            0,
        ),
    },
    Row {
        text: b"MACRO m CLASS PAD ; CLASS BLOCK SOFT ; FOREIGN f ; FOREIGN g 1 2 ; ORIGIN 1 1 ; ORIGIN 2 3 ; SIZE 1 BY 1 ; SIZE 4 BY 5 ; SYMMETRY X ; SYMMETRY Y ; END m",
        read: Read::Tree("macro m BLOCK SOFT 2 3 4 5 2 - g 1 2 obs /", 0),
    },
    Row {
        text: b"MACRO m CLASS ; SOURCE USER ; EEQ n ; DENSITY LAYER m1 ; END TIMING FROMPIN x END END TIMING OBS END OBS LAYER m1 SPACING 2 ; RECT 1 2 3 4 ; PATH 1 2 ; END END m",
        read: Read::Tree("macro m  - - - - 0 -  obs m1 1 2 3 4 /", 6),
    },
    Row {
        text: b"MACRO m PIN a DIRECTION INPUT ; USE CLOCK ; PORT LAYER m1 ; RECT 0 0 1 1 ; END PORT CLASS CORE ; LAYER m2 ; RECT 0 0 2 2 ; END END a PIN b DIRECTION OUTPUT ; END b PIN c DIRECTION OUTPUT TRISTATE ; END c END m",
        read: Read::Tree(
            "macro m  - - - - 0 -  pin a 1 5 m1 0 0 1 1 m2 0 0 2 2 pin b 2 0 pin c 3 0 obs /",
            1,
        ),
    },
    Row {
        text: b"MACRO m PIN a DIRECTION TRISTATE ; DIRECTION INPUT TRISTATE ; DIRECTION OUTPUT INPUT ; DIRECTION INOUT ; USE - ; USE SCAN ; ANTENNAGATEAREA 1 ; END a END m",
        read: Read::Tree("macro m  - - - - 0 -  pin a 4 7 obs /", 5),
    },
    Row {
        text: b"MACRO m PIN a USE POWER ; END a PIN b END b PIN a FROB ; USE GROUND ; END a END m MACRO m END m FROB x ; END LIBRARY",
        read: Read::Tree(
            "macro m  - - - - 0 -  pin a 0 3 pin b 0 0 obs /macro m  - - - - 0 -  obs /",
            3,
        ),
    },
    Row {
        text: b"MACRO VDD PIN VDD DIRECTION INOUT ; USE POWER ; END VDD END VDD MACRO n PIN VDD END VDD END n",
        read: Read::Tree(
            "macro VDD  - - - - 0 -  pin VDD 4 3 obs /macro n  - - - - 0 -  pin VDD 0 0 obs /",
            0,
        ),
    },
    Row {
        text: b"UNITS DATABASE MICRONS 1000 ; END UNITS SITE s CLASS CORE ; SIZE 0.46 BY 2.72 ; END s MACRO m ORIGIN -0.0005 0.0004 ; SITE s ; SIZE 1.38 BY 2.72 ; END m END LIBRARY",
        read: Read::Tree(
            "units 1000 /site s 1 0 0.46 2.72 /macro m  -0.0005 0.0004 1.38 2.72 0 s  obs /",
            0,
        ),
    },
    // Faults and their lines.
    Row {
        text: b";",
        read: Read::Fault(1, LefKind::Unexpected),
    },
    Row {
        text: b"\nVIA v ;",
        read: Read::Fault(2, LefKind::Unexpected),
    },
    Row {
        text: b"END\nUNITS",
        read: Read::Fault(2, LefKind::Unexpected),
    },
    Row {
        text: b"LAYER m END\n\nn ;",
        read: Read::Fault(3, LefKind::Unexpected),
    },
    Row {
        text: b"VIA v\nRECT 1 1 2 2 ;",
        read: Read::Fault(2, LefKind::Unexpected),
    },
    Row {
        text: b"MACRO m OBS LAYER ; \n RECT 1 1 2 2 ;",
        read: Read::Fault(2, LefKind::Unexpected),
    },
    Row {
        text: b"MACRO m OBS END m",
        read: Read::Fault(1, LefKind::Cut),
    },
    Row {
        text: b"MACRO m OBS END END\nOBS",
        read: Read::Fault(2, LefKind::Unexpected),
    },
    Row {
        text: b"LAYER m ACCURRENTDENSITY PEAK WIDTH 1 ;\n;",
        read: Read::Fault(2, LefKind::Unexpected),
    },
    Row {
        text: b"UNITS DATABASE MICRONS\n0 ;",
        read: Read::Fault(2, LefKind::BadNumber),
    },
    Row {
        text: b"UNITS DATABASE MICRONS 100001 ;",
        read: Read::Fault(1, LefKind::BadNumber),
    },
    Row {
        text: b"UNITS DATABASE MICRONS 1e3 ;",
        read: Read::Fault(1, LefKind::BadNumber),
    },
    Row {
        text: b"LAYER m WIDTH\n1e3 ;",
        read: Read::Fault(2, LefKind::BadNumber),
    },
    Row {
        text: b"LAYER m PITCH 1\nx ;",
        read: Read::Fault(2, LefKind::BadNumber),
    },
    Row {
        text: b"LAYER m SPACING 1 ; SPACING\nx ;",
        read: Read::Fault(2, LefKind::BadNumber),
    },
    Row {
        text: b"SITE s SIZE 1 BY\nx ;",
        read: Read::Fault(2, LefKind::BadNumber),
    },
    Row {
        text: b"VIA v LAYER m ; RECT MASK\nx 1 1 1 1 ;",
        read: Read::Fault(2, LefKind::BadNumber),
    },
    Row {
        text: b"LAYER\na*b TYPE",
        read: Read::Fault(2, LefKind::BadName),
    },
    Row {
        text: b"VIA N END N",
        read: Read::Fault(1, LefKind::BadName),
    },
    Row {
        text: b"VIA\nFE DEFAULT",
        read: Read::Fault(2, LefKind::BadName),
    },
    Row {
        text: b"VIA\na*b",
        read: Read::Fault(2, LefKind::BadName),
    },
    Row {
        text: b"MACRO m SITE s ; SITE\n( ;",
        read: Read::Fault(2, LefKind::BadName),
    },
    Row {
        text: b"MACRO m PIN\nPIN",
        read: Read::Fault(2, LefKind::BadName),
    },
    Row {
        text: b"LAYER m",
        read: Read::Fault(1, LefKind::Cut),
    },
    Row {
        text: b"LAYER m END m\n\nFROB",
        read: Read::Fault(3, LefKind::Cut),
    },
    Row {
        text: b"END\n",
        read: Read::Fault(2, LefKind::Cut),
    },
    Row {
        text: b"VIA v DEFAULT\n",
        read: Read::Fault(2, LefKind::Cut),
    },
    Row {
        text: b"BEGINEXT ; END",
        read: Read::Fault(1, LefKind::Cut),
    },
    Row {
        text: b"SITE s SIZE 1 FROB x ; SIZE 1 BY ; END s\nUNITS",
        read: Read::Fault(2, LefKind::Cut),
    },
];
