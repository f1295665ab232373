//! Texts and what is read of them.

/// What is wrong with a word; of an unsupported one with its text.
#[derive(Clone, Copy)]
pub enum Kind {
    Unexpected,
    BadNumber,
    BadName,
    Unsupported(&'static str),
    Duplicate,
    Cut,
}

/// What is read of a text.
#[derive(Clone, Copy)]
pub enum Read {
    /// The tree as `shown` has it, how many parts were passed over, and how many sections are miscounted.
    Tree(&'static str, u64, u64),
    /// A fault on this line.
    Fault(u64, Kind),
}

/// A text and what is read of it.
pub struct Row {
    pub text: &'static [u8],
    pub read: Read,
}

/// The header.
pub const HEADERS: [Row; 19] = [
    Row {
        text: b"END DESIGN what \"ever",
        read: Read::Tree("", 0, 0),
    },
    Row {
        text: b"VERSION 5.8 ; DIVIDERCHAR \".\" ; BUSBITCHARS \"<>\" ; DESIGN a/top ; UNITS DISTANCE MICRONS 02000 ; DIEAREA ( 10 -20 ) ( -30 40 ) ; END DESIGN",
        read: Read::Tree(
            "design a/top /chars . <> /units 2000 /die ( -30 -20 10 40 ) /",
            0,
            0,
        ),
    },
    Row {
        text: b"DESIGN a ; DESIGN b ; UNITS DISTANCE MICRONS 1 ; UNITS DISTANCE MICRONS 100000 ; END DESIGN",
        read: Read::Tree("design b /units 100000 /", 0, 0),
    },
    Row {
        text: b"DIVIDERCHAR / ; DIVIDERCHAR \"//\" ; BUSBITCHARS \"[\" ; BUSBITCHARS \"[\t\" ; DESIGN a b ; UNITS MICRONS 1 ; DIEAREA ( 0 0 ) ; VERSION ; END DESIGN",
        read: Read::Tree("", 8, 0),
    },
    Row {
        text: b"# DESIGN a ;\nDESIGN\r\nb\t; END DESIGN",
        read: Read::Tree("design b /", 0, 0),
    },
    Row {
        text: b"GCELLGRID X 0 DO 1 STEP 1 ; HISTORY a b ; FOO ; STYLES 1 ; - STYLE 1 END STYLE END STYLES NONDEFAULTRULES ; END NONDEFAULTRULES SLOTS END SLOTS FILLS END x END FILLS SCANCHAINS END END SCANCHAINS PINPROPERTIES END PINPROPERTIES BEGINEXT \"t\" END DESIGN ENDEXT END DESIGN",
        read: Read::Tree("", 10, 0),
    },
    Row {
        text: b"DESIGN a*b ; END DESIGN",
        read: Read::Fault(1, Kind::BadName),
    },
    Row {
        text: b"UNITS DISTANCE\nMICRONS 0 ; END DESIGN",
        read: Read::Fault(2, Kind::BadNumber),
    },
    Row {
        text: b"UNITS DISTANCE MICRONS 100001 ; END DESIGN",
        read: Read::Fault(1, Kind::BadNumber),
    },
    Row {
        text: b"DIEAREA ( 0 0 ) ( 1 1 )\n\n( 2 2 ) ; END DESIGN",
        read: Read::Fault(3, Kind::Unsupported("(")),
    },
    Row {
        text: b"DIEAREA ( 0 x ) ( 1 1 ) ; END DESIGN",
        read: Read::Fault(1, Kind::BadNumber),
    },
    Row {
        text: b"DIEAREA ( 0 2000000001 ) ( 1 1 ) ; END DESIGN",
        read: Read::Fault(1, Kind::BadNumber),
    },
    Row {
        text: b"DIEAREA ( -2000000000 007 ) ( 2000000000 -0 ) ; END DESIGN",
        read: Read::Tree("die ( -2000000000 0 2000000000 7 ) /", 0, 0),
    },
    Row {
        text: b"; END DESIGN",
        read: Read::Fault(1, Kind::Unexpected),
    },
    Row {
        text: b"END LIBRARY",
        read: Read::Fault(1, Kind::Unexpected),
    },
    Row {
        text: b"DESIGN top ;",
        read: Read::Fault(1, Kind::Cut),
    },
    Row {
        text: b"DESIGN top ;\n",
        read: Read::Fault(2, Kind::Cut),
    },
    Row {
        text: b"DESIGN top",
        read: Read::Fault(1, Kind::Cut),
    },
    Row {
        text: b"STYLES 1 ;",
        read: Read::Fault(1, Kind::Cut),
    },
];

/// Definitions of properties.
pub const DEFINITIONS: [Row; 6] = [
    Row {
        text: b"PROPERTYDEFINITIONS NET b INTEGER RANGE 1 2 ; DESIGN a STRING \"x y\" ; NET a REAL ; LAYER l STRING ; BEGINEXT ; COMPONENTPIN p STRING ; END PROPERTYDEFINITIONS PROPERTYDEFINITIONS END PROPERTYDEFINITIONS END DESIGN",
        read: Read::Tree(
            "definition DESIGN a STRING \"x y\" /definition NET a REAL /definition NET b INTEGER RANGE 1 2 /definition COMPONENTPIN p STRING /",
            2,
            0,
        ),
    },
    Row {
        text: b"PROPERTYDEFINITIONS NET a REAL ;\nNET a REAL ; END PROPERTYDEFINITIONS END DESIGN",
        read: Read::Fault(2, Kind::Duplicate),
    },
    Row {
        text: b"PROPERTYDEFINITIONS NET a FOO ; END PROPERTYDEFINITIONS END DESIGN",
        read: Read::Fault(1, Kind::Unexpected),
    },
    Row {
        text: b"PROPERTYDEFINITIONS NET ; END PROPERTYDEFINITIONS END DESIGN",
        read: Read::Fault(1, Kind::BadName),
    },
    Row {
        text: b"PROPERTYDEFINITIONS ; END PROPERTYDEFINITIONS END DESIGN",
        read: Read::Fault(1, Kind::Unexpected),
    },
    Row {
        text: b"PROPERTYDEFINITIONS END DESIGN",
        read: Read::Fault(1, Kind::Unexpected),
    },
];

/// Rows and tracks.
pub const ROWS_AND_TRACKS: [Row; 14] = [
    Row {
        text: b"ROW r2 core 1 -2 FS ; ROW r1 core 0 0 N DO 40 BY 1 STEP 460 0 + PROPERTY a 1 b \"x y\" + PROPERTY c ( ; ROW r3 s 0 0 W DO 1 BY 1000000 ; END DESIGN",
        read: Read::Tree(
            "row r1 core 0 0 N 40 1 460 0 property a 1 property b \"x y\" property c ( /row r2 core 1 -2 FS 1 1 0 0 /row r3 s 0 0 W 1 1000000 0 0 /",
            0,
            0,
        ),
    },
    Row {
        text: b"ROW r core 0 0 N DO 1 ; ROW r core 0 0 Q ; ROW r core 0 0 N FOO ; ROW r core 0 0 N + FOO 1 ; ROW ; ROW r ; ROW r core ; ROW r core 0 0 N + PROPERTY ; ROW r core 0 0 N + ; ROW r core 0 0 E ; END DESIGN",
        read: Read::Tree("row r core 0 0 E 1 1 0 0 /", 9, 0),
    },
    Row {
        text: b"ROW r core 0 0 N ;\nROW r core 0 0 N ; END DESIGN",
        read: Read::Fault(2, Kind::Duplicate),
    },
    Row {
        text: b"ROW r core x 0 N ; END DESIGN",
        read: Read::Fault(1, Kind::BadNumber),
    },
    Row {
        text: b"ROW r core 0 0 N DO 0 BY 1 ; END DESIGN",
        read: Read::Fault(1, Kind::BadNumber),
    },
    Row {
        text: b"ROW r core 0 0 N DO 1 BY 1000001 ; END DESIGN",
        read: Read::Fault(1, Kind::BadNumber),
    },
    Row {
        text: b"ROW ( core 0 0 N ; END DESIGN",
        read: Read::Fault(1, Kind::BadName),
    },
    Row {
        text: b"ROW r core 0 0 N + PROPERTY + ; END DESIGN",
        read: Read::Fault(1, Kind::BadName),
    },
    Row {
        text: b"ROW r core 0 0 N + PROPERTY a 1 a 2 ; END DESIGN",
        read: Read::Fault(1, Kind::Duplicate),
    },
    Row {
        text: b"ROW r core 0 0 N + PROPERTY a 1 ( ; END DESIGN",
        read: Read::Fault(1, Kind::BadName),
    },
    Row {
        text: b"TRACKS X 230 DO 43 STEP 460 LAYER met1 ; TRACKS Y -5 DO 1 STEP 1 ; TRACKS X 0 DO 1 STEP 1 LAYER a b a ; TRACKS Z 0 DO 1 STEP 1 ; TRACKS X ; TRACKS X 0 DO 1 STEP 1 FOO ; TRACKS X 0 DO 1 STEP 1 LAYER ; END DESIGN",
        read: Read::Tree(
            "track X 230 43 460 met1 /track Y -5 1 1 /track X 0 1 1 a b a /",
            4,
            0,
        ),
    },
    Row {
        text: b"TRACKS X 0 DO 1 STEP 0 ; END DESIGN",
        read: Read::Fault(1, Kind::BadNumber),
    },
    Row {
        text: b"TRACKS X 0 DO 1 STEP 1 LAYER a ( ; END DESIGN",
        read: Read::Fault(1, Kind::BadName),
    },
    Row {
        text: b"TRACKS X a DO 1 STEP 1 ; END DESIGN",
        read: Read::Fault(1, Kind::BadNumber),
    },
];

/// Sections and their counts.
pub const SECTIONS: [Row; 10] = [
    Row {
        text: b"COMPONENTS 3 ; - u INV ; END COMPONENTS END DESIGN",
        read: Read::Tree("component u INV UNPLACED 0 0 N /", 0, 1),
    },
    Row {
        text: b"COMPONENTS 1 ; - u INV ; END COMPONENTS VIAS 0 ; END VIAS COMPONENTS 01 ; - a INV ; END COMPONENTS NETS -0 ; END NETS GROUPS -1 ; END GROUPS PINS 18446744073709551616 ; END PINS END DESIGN",
        read: Read::Tree(
            "component a INV UNPLACED 0 0 N /component u INV UNPLACED 0 0 N /",
            0,
            2,
        ),
    },
    Row {
        text: b"COMPONENTS 1 ; - u INV ; END COMPONENTS COMPONENTS 1 ;\n- u INV ; END COMPONENTS END DESIGN",
        read: Read::Fault(2, Kind::Duplicate),
    },
    Row {
        text: b"COMPONENTS x ; END COMPONENTS END DESIGN",
        read: Read::Fault(1, Kind::BadNumber),
    },
    Row {
        text: b"NETS ; END NETS END DESIGN",
        read: Read::Fault(1, Kind::BadNumber),
    },
    Row {
        text: b"COMPONENTS 1 x END COMPONENTS END DESIGN",
        read: Read::Fault(1, Kind::Unexpected),
    },
    Row {
        text: b"COMPONENTS 0 ; BEGINEXT ; END DESIGN",
        read: Read::Fault(1, Kind::Unexpected),
    },
    Row {
        text: b"COMPONENTS 0 ; END VIAS END DESIGN",
        read: Read::Fault(1, Kind::Unexpected),
    },
    Row {
        text: b"COMPONENTS 0 ; END DESIGN",
        read: Read::Fault(1, Kind::Unexpected),
    },
    Row {
        text: b"COMPONENTS 0 ; ; END COMPONENTS END DESIGN",
        read: Read::Fault(1, Kind::Unexpected),
    },
];

/// Vias and regions.
pub const VIAS_AND_REGIONS: [Row; 14] = [
    Row {
        text: b"VIAS 3 ; - v2 ; - v1 + VIARULE M1M4 + CUTSIZE 150 150 + \"a b\" ( ) ; - v3 + RECT m ( 0 0 ) ( 1 1 ) + X ; END VIAS END DESIGN",
        read: Read::Tree(
            "via v1 + VIARULE M1M4 + CUTSIZE 150 150 + \"a b\" ( ) /via v2 /via v3 + RECT m ( 0 0 ) ( 1 1 ) + X /",
            0,
            0,
        ),
    },
    Row {
        text: b"VIAS 1 ; - N ; END VIAS END DESIGN",
        read: Read::Fault(1, Kind::BadName),
    },
    Row {
        text: b"VIAS 1 ; - v x ; END VIAS END DESIGN",
        read: Read::Fault(1, Kind::Unexpected),
    },
    Row {
        text: b"VIAS 1 ; - v + ; END VIAS END DESIGN",
        read: Read::Fault(1, Kind::Unexpected),
    },
    Row {
        text: b"VIAS 1 ; - v + + ; END VIAS END DESIGN",
        read: Read::Fault(1, Kind::Unexpected),
    },
    Row {
        text: b"VIAS 1 ; - v ; - v ; END VIAS END DESIGN",
        read: Read::Fault(1, Kind::Duplicate),
    },
    Row {
        text: b"VIAS 1 ; - ; END VIAS END DESIGN",
        read: Read::Fault(1, Kind::BadName),
    },
    Row {
        text: b"REGIONS 2 ; - r ( 5 6 ) ( 1 2 ) ( 0 0 ) ( 1 1 ) + TYPE FENCE + FOO 1 + PROPERTY p 1 ; - q ( 0 0 ) ( 0 0 ) ; END REGIONS END DESIGN",
        read: Read::Tree(
            "region q - ( 0 0 0 0 ) /region r FENCE ( 1 2 5 6 ) ( 0 0 1 1 ) + FOO 1 property p 1 /",
            0,
            0,
        ),
    },
    Row {
        text: b"REGIONS 1 ; - r ( 0 0 ) ( 1 1 ) + TYPE FENCE + TYPE GUIDE ; END REGIONS END DESIGN",
        read: Read::Tree("region r GUIDE ( 0 0 1 1 ) /", 0, 0),
    },
    Row {
        text: b"REGIONS 1 ; - r ; END REGIONS END DESIGN",
        read: Read::Fault(1, Kind::Unexpected),
    },
    Row {
        text: b"REGIONS 1 ; - r ( 0 0 ) ; END REGIONS END DESIGN",
        read: Read::Fault(1, Kind::Unexpected),
    },
    Row {
        text: b"REGIONS 1 ; - r ( 0 0 ) ( 1 1 ) + TYPE none ; END REGIONS END DESIGN",
        read: Read::Fault(1, Kind::Unexpected),
    },
    Row {
        text: b"REGIONS 1 ; - r ( 0 0 ) ( 1 1 ) + TYPE FENCE ( 0 0 ) ( 1 1 ) ; END REGIONS END DESIGN",
        read: Read::Fault(1, Kind::Unexpected),
    },
    Row {
        text: b"REGIONS 1 ; - r ( 0 ; ) ; END REGIONS END DESIGN",
        read: Read::Fault(1, Kind::BadNumber),
    },
];

/// Components.
pub const COMPONENTS: [Row; 9] = [
    Row {
        text: b"COMPONENTS 3 ; - u2 INV + PLACED ( 1380 0 ) FS ; - u1 INV + SOURCE TIMING + PLACED ( 0 0 ) N + FIXED ( 1 2 ) E ; - u3 INV + COVER ( 1 1 ) S + UNPLACED + PROPERTY p q ; END COMPONENTS END DESIGN",
        read: Read::Tree(
            "component u1 INV FIXED 1 2 E + SOURCE TIMING /component u2 INV PLACED 1380 0 FS /component u3 INV UNPLACED 0 0 N property p q /",
            0,
            0,
        ),
    },
    Row {
        text: b"COMPONENTS 1 ; - u ; END COMPONENTS END DESIGN",
        read: Read::Fault(1, Kind::BadName),
    },
    Row {
        text: b"COMPONENTS 1 ; - u INV PLACED ; END COMPONENTS END DESIGN",
        read: Read::Fault(1, Kind::Unexpected),
    },
    Row {
        text: b"COMPONENTS 1 ; - u INV + PLACED 0 ; END COMPONENTS END DESIGN",
        read: Read::Fault(1, Kind::Unexpected),
    },
    Row {
        text: b"COMPONENTS 1 ; - u INV + PLACED ( 0 0 ) Q ; END COMPONENTS END DESIGN",
        read: Read::Fault(1, Kind::Unexpected),
    },
    Row {
        text: b"COMPONENTS 1 ; - u INV + UNPLACED ( 0 0 ) ; END COMPONENTS END DESIGN",
        read: Read::Fault(1, Kind::Unexpected),
    },
    Row {
        text: b"COMPONENTS 1 ; - u INV + PROPERTY ; END COMPONENTS END DESIGN",
        read: Read::Fault(1, Kind::BadName),
    },
    Row {
        text: b"COMPONENTS 1 ; - u INV + PROPERTY p ; END COMPONENTS END DESIGN",
        read: Read::Fault(1, Kind::Unexpected),
    },
    Row {
        text: b"COMPONENTS 2 ; - u INV ; - u\nx*y ; END COMPONENTS END DESIGN",
        read: Read::Fault(1, Kind::Duplicate),
    },
];

/// Pins.
pub const PINS: [Row; 9] = [
    Row {
        text: b"PINS 1 ; - in + NET n1 + DIRECTION INPUT + USE SIGNAL + PORT + LAYER met1 ( -70 -70 ) ( 70 70 ) + PLACED ( 0 100 ) N ; END PINS END DESIGN",
        read: Read::Tree(
            "pin in n1 INPUT SIGNAL port met1 ( -70 -70 70 70 ) PLACED 0 100 N /net n1 PIN in - /",
            0,
            0,
        ),
    },
    Row {
        text: b"PINS 1 ; - p + LAYER m1 ( 0 0 ) ( 1 1 ) + LAYER m2 ( 0 0 ) ( 2 2 ) + A 1 + PORT + B + COVER ( 1 1 ) W + FIXED ( 2 2 ) E + UNPLACED + NET a + NET b ; END PINS END DESIGN",
        read: Read::Tree(
            "pin p b - - + A 1 port m1 ( 0 0 1 1 ) m2 ( 0 0 2 2 ) UNPLACED 0 0 N port FIXED 2 2 E + B + UNPLACED /net b PIN p - /",
            0,
            0,
        ),
    },
    Row {
        text: b"PINS 4 ; - a + LAYER ; - b + LAYER m1 DESIGNRULEWIDTH 5 ; - c + LAYER + USE CLOCK ; - d + LAYER * + PORT + LAYER x + LAYER m ( 1 1 ) ( 0 0 ) ; END PINS END DESIGN",
        read: Read::Tree(
            "pin a - - - + LAYER /pin b - - - + LAYER m1 DESIGNRULEWIDTH 5 /pin c - - CLOCK + LAYER /pin d - - - + LAYER * port m ( 0 0 1 1 ) UNPLACED 0 0 N + LAYER x /",
            0,
            0,
        ),
    },
    Row {
        text: b"PINS 1 ; - p + LAYER + (\n0 0 ) ; END PINS END DESIGN",
        read: Read::Fault(1, Kind::Unexpected),
    },
    Row {
        text: b"PINS 1 ; - p + LAYER a*b ( 0 0 ) ( 1 1 ) ; END PINS END DESIGN",
        read: Read::Fault(1, Kind::Unexpected),
    },
    Row {
        text: b"PINS 1 ; - p + DIRECTION OUTPUT TRISTATE ; END PINS END DESIGN",
        read: Read::Fault(1, Kind::Unexpected),
    },
    Row {
        text: b"PINS 1 ; - p + USE none ; END PINS END DESIGN",
        read: Read::Fault(1, Kind::Unexpected),
    },
    Row {
        text: b"PINS 1 ; - p + NET ; ; END PINS END DESIGN",
        read: Read::Fault(1, Kind::BadName),
    },
    Row {
        text: b"PINS 1 ; - p + LAYER m ( 0 0 ) ; END PINS END DESIGN",
        read: Read::Fault(1, Kind::Unexpected),
    },
];

/// Blockages.
pub const BLOCKAGES: [Row; 14] = [
    Row {
        text: b"BLOCKAGES 3 ; - LAYER POLYGON RECT ( 1 1 ) ( 0 0 ) ; - PLACEMENT + SOFT + PARTIAL 0.5 RECT ( 0 0 ) ( 1 1 ) RECT ( 2 2 ) ( 3 3 ) ; - LAYER m + COMPONENT u RECT ( 0 0 ) ( 1 1 ) ; END BLOCKAGES END DESIGN",
        read: Read::Tree(
            "blockage POLYGON ( 0 0 1 1 ) /blockage - ( 0 0 1 1 ) ( 2 2 3 3 ) + SOFT + PARTIAL 0.5 /blockage m ( 0 0 1 1 ) + COMPONENT u /",
            0,
            0,
        ),
    },
    Row {
        text: b"BLOCKAGES 1 ;\n- POLYGON",
        read: Read::Fault(2, Kind::Unsupported("POLYGON")),
    },
    Row {
        text: b"BLOCKAGES 1 ;\n- LAYER m POLYGON ( 0 0 )",
        read: Read::Fault(2, Kind::Unsupported("POLYGON")),
    },
    Row {
        text: b"BLOCKAGES 1 ;\n- LAYER m + POLYGON",
        read: Read::Fault(2, Kind::Unsupported("POLYGON")),
    },
    Row {
        text: b"BLOCKAGES 1 ;\n- LAYER m + A POLYGON",
        read: Read::Fault(2, Kind::Unsupported("POLYGON")),
    },
    Row {
        text: b"BLOCKAGES 1 ;\n- LAYER m RECT ( POLYGON",
        read: Read::Fault(2, Kind::Unsupported("POLYGON")),
    },
    Row {
        text: b"BLOCKAGES 1 ;\n- LAYER m RECT POLYGON",
        read: Read::Fault(2, Kind::Unsupported("POLYGON")),
    },
    Row {
        text: b"BLOCKAGES 1 ;\n- LAYER m RECT ( 0 0 ) ( 1 1 ) POLYGON",
        read: Read::Fault(2, Kind::Unsupported("POLYGON")),
    },
    Row {
        text: b"BLOCKAGES 1 ;\n- LAYER m ;",
        read: Read::Fault(2, Kind::Unexpected),
    },
    Row {
        text: b"BLOCKAGES 1 ;\n- LAYER m + A ;",
        read: Read::Fault(2, Kind::Unexpected),
    },
    Row {
        text: b"BLOCKAGES 1 ;\n- LAYER m RECT ( 0 0 ) ( 1 1 ) + A ;",
        read: Read::Fault(2, Kind::Unexpected),
    },
    Row {
        text: b"BLOCKAGES 1 ;\n- m RECT",
        read: Read::Fault(2, Kind::Unexpected),
    },
    Row {
        text: b"BLOCKAGES 1 ;\n- LAYER ( RECT",
        read: Read::Fault(2, Kind::BadName),
    },
    Row {
        text: b"BLOCKAGES 1 ;\n- LAYER m + RECT ( 0 0 )",
        read: Read::Fault(2, Kind::Unexpected),
    },
];

/// Groups.
pub const GROUPS: [Row; 5] = [
    Row {
        text: b"GROUPS 2 ; - g u2 u1 + REGION r + FOO + PROPERTY p 1 ; - f ; END GROUPS END DESIGN",
        read: Read::Tree("group f - /group g u1 u2 r + FOO property p 1 /", 0, 0),
    },
    Row {
        text: b"GROUPS 1 ; - g u1 u2\nu1 ; END GROUPS END DESIGN",
        read: Read::Fault(2, Kind::Duplicate),
    },
    Row {
        text: b"GROUPS 1 ; - g u* ; END GROUPS END DESIGN",
        read: Read::Fault(1, Kind::Unsupported("u*")),
    },
    Row {
        text: b"GROUPS 1 ; - g ( ; END GROUPS END DESIGN",
        read: Read::Fault(1, Kind::BadName),
    },
    Row {
        text: b"GROUPS 1 ; - g + REGION r u ; END GROUPS END DESIGN",
        read: Read::Fault(1, Kind::Unexpected),
    },
];

/// Nets.
pub const NETS: [Row; 6] = [
    Row {
        text: b"NETS 2 ; - n2 ( u1 A ) ( PIN p ) ( u0 B + SYNTHESIZED ) ( u1 A ) + USE CLOCK + USE SIGNAL ; - n1 + WEIGHT 2 + PROPERTY p 1 ; END NETS END DESIGN",
        read: Read::Tree(
            "net n1 - + WEIGHT 2 property p 1 /net n2 PIN p u0 B u1 A SIGNAL /",
            1,
            0,
        ),
    },
    Row {
        text: b"SPECIALNETS 1 ; - VDD ( * VDD ) + USE POWER + ROUTED met4 480 + SHAPE STRIPE ( 500 0 ) ( * 20000 ) NEW met1 0 + SHAPE STRIPE ( 500 0 ) v1 + FOO + FIXED m 1 ( 0 0 ) ; END SPECIALNETS NETS 1 ; - VDD ( u A ) + BAR + ROUTED m ( 0 0 ) + PROPERTY p 1 + USE GROUND ; END NETS END DESIGN",
        read: Read::Tree(
            "special VDD u A * VDD GROUND + FOO ROUTED path met4 480 STRIPE ( 500 0 ) ( 500 20000 ) path met1 0 STRIPE ( 500 0 ) v1 FIXED path m 1 ( 0 0 ) + BAR ROUTED path m ( 0 0 ) property p 1 /",
            0,
            0,
        ),
    },
    Row {
        text: b"NETS 1 ; - n1 ( PIN in ) ( u1 A ) + USE SIGNAL + ROUTED met1 ( 0 100 ) ( 300 * ) RECT ( -70 0 70 100 ) NEW met1 ( 300 100 ) v1 ; END NETS END DESIGN",
        read: Read::Tree(
            "net n1 PIN in u1 A SIGNAL ROUTED path met1 ( 0 100 ) ( 300 100 ) RECT -70 0 70 100 path met1 ( 300 100 ) v1 /",
            0,
            0,
        ),
    },
    Row {
        text: b"NETS 1 ; - n + ROUTED m TAPER ( 1 2 3 ) v N ( * 5 0 ) v2 NEW m TAPERRULE r ( 0 0 ) ( 1 * ) v v + COVER ;  END NETS END DESIGN",
        read: Read::Tree(
            "net n - + COVER ROUTED path m TAPER ( 1 2 3 ) v N ( 1 5 0 ) v2 path m r ( 0 0 ) ( 1 0 ) v v /",
            0,
            0,
        ),
    },
    Row {
        text: b"NETS 1 ; - n + ROUTED + FIXED + USE SCAN ; END NETS END DESIGN",
        read: Read::Tree("net n SCAN + ROUTED + FIXED /", 0, 0),
    },
    Row {
        text: b"PINS 2 ; - a + NET n ; - b + NET n ; END PINS NETS 1 ; - n ( u A ) ; END NETS SPECIALNETS 1 ; - n ; END SPECIALNETS PINS 1 ; - c + NET n ; END PINS END DESIGN",
        read: Read::Tree(
            "pin a n - - /pin b n - - /pin c n - - /special n PIN a PIN b PIN c u A - /",
            0,
            0,
        ),
    },
];

/// Faults of nets.
pub const FAULTS_OF_NETS: [Row; 29] = [
    Row {
        text: b"NETS 1 ;\n- MUSTJOIN ( u A ) ;",
        read: Read::Fault(2, Kind::Unsupported("MUSTJOIN")),
    },
    Row {
        text: b"NETS 1 ;\n- n + SUBNET s ;",
        read: Read::Fault(2, Kind::Unsupported("SUBNET")),
    },
    Row {
        text: b"NETS 1 ;\n- n ( * A ) ;",
        read: Read::Fault(2, Kind::BadName),
    },
    Row {
        text: b"NETS 1 ;\n- n ( u ) ;",
        read: Read::Fault(2, Kind::BadName),
    },
    Row {
        text: b"NETS 1 ;\n- n ( u A + FOO ) ;",
        read: Read::Fault(2, Kind::Unexpected),
    },
    Row {
        text: b"NETS 1 ;\n- n u ;",
        read: Read::Fault(2, Kind::Unexpected),
    },
    Row {
        text: b"NETS 1 ;\n- n + USE SIGNAL ( u A ) ;",
        read: Read::Fault(2, Kind::Unexpected),
    },
    Row {
        text: b"NETS 1 ;\n- n + ROUTED m MASK",
        read: Read::Fault(2, Kind::Unsupported("MASK")),
    },
    Row {
        text: b"NETS 1 ;\n- n + ROUTED m ( 0 0 ) VIRTUAL",
        read: Read::Fault(2, Kind::Unsupported("VIRTUAL")),
    },
    Row {
        text: b"NETS 1 ;\n- n + ROUTED m ( 0 0 ) v DO",
        read: Read::Fault(2, Kind::Unsupported("DO")),
    },
    Row {
        text: b"NETS 1 ;\n- n + ROUTED m ( STYLE",
        read: Read::Fault(2, Kind::Unsupported("STYLE")),
    },
    Row {
        text: b"NETS 1 ;\n- n + ROUTED ( 0 0 )",
        read: Read::Fault(2, Kind::BadName),
    },
    Row {
        text: b"NETS 1 ;\n- n + ROUTED m ;",
        read: Read::Fault(2, Kind::Unexpected),
    },
    Row {
        text: b"NETS 1 ;\n- n + ROUTED m ( * 0 )",
        read: Read::Fault(2, Kind::BadNumber),
    },
    Row {
        text: b"NETS 1 ;\n- n + ROUTED m ( 0 0 ) NEW m ( * 0 )",
        read: Read::Fault(2, Kind::BadNumber),
    },
    Row {
        text: b"NETS 1 ;\n- n + ROUTED m ( 0 ;",
        read: Read::Fault(2, Kind::BadNumber),
    },
    Row {
        text: b"NETS 1 ;\n- n + ROUTED m ( 0 0 -1 )",
        read: Read::Fault(2, Kind::BadNumber),
    },
    Row {
        text: b"NETS 1 ;\n- n + ROUTED m ( 0 0 1 1",
        read: Read::Fault(2, Kind::Unexpected),
    },
    Row {
        text: b"NETS 1 ;\n- n + ROUTED m ( 0 0 ) N",
        read: Read::Fault(2, Kind::BadName),
    },
    Row {
        text: b"NETS 1 ;\n- n + ROUTED m ( 0 0 ) NEW ;",
        read: Read::Fault(2, Kind::BadName),
    },
    Row {
        text: b"NETS 1 ;\n- n + ROUTED m ( 0 0 ) RECT ( 1 2 3 *",
        read: Read::Fault(2, Kind::BadNumber),
    },
    Row {
        text: b"NETS 1 ;\n- n + ROUTED m 5 ( 0 0 )",
        read: Read::Fault(2, Kind::Unexpected),
    },
    Row {
        text: b"SPECIALNETS 1 ;\n- n + ROUTED m ( 0 0 )",
        read: Read::Fault(2, Kind::BadNumber),
    },
    Row {
        text: b"SPECIALNETS 1 ;\n- n + ROUTED m -1",
        read: Read::Fault(2, Kind::BadNumber),
    },
    Row {
        text: b"SPECIALNETS 1 ;\n- n + ROUTED m 5 + FOO",
        read: Read::Fault(2, Kind::Unexpected),
    },
    Row {
        text: b"SPECIALNETS 1 ;\n- n + ROUTED m 5 + SHAPE (",
        read: Read::Fault(2, Kind::BadName),
    },
    Row {
        text: b"NETS 2 ; - n ;\n- n ;",
        read: Read::Fault(2, Kind::Duplicate),
    },
    Row {
        text: b"SPECIALNETS 2 ; - n ;\n- n ;",
        read: Read::Fault(2, Kind::Duplicate),
    },
    Row {
        text: b"NETS 1 ;\n- n + ROUTED m ( 0 0 )",
        read: Read::Fault(2, Kind::Cut),
    },
];

/// A whole text.
pub const WHOLE: [Row; 1] = [Row {
    text: b"VERSION 5.8 ;\nDIVIDERCHAR \"/\" ;\nBUSBITCHARS \"[]\" ;\nDESIGN top ;\nUNITS DISTANCE MICRONS 1000 ;\nDIEAREA ( 0 0 ) ( 20000 20000 ) ;\nROW ROW_0 core 0 0 N DO 40 BY 1 STEP 460 0 ;\nTRACKS X 230 DO 43 STEP 460 LAYER met1 ;\nVIAS 1 ;\n- v1 + VIARULE M1M4 + CUTSIZE 150 150 + LAYERS met1 via met4 ;\nEND VIAS\nCOMPONENTS 2 ;\n- u2 INV + PLACED ( 1380 0 ) FS ;\n- u1 INV + SOURCE TIMING + PLACED ( 0 0 ) N ;\nEND COMPONENTS\nPINS 1 ;\n- in + NET n1 + DIRECTION INPUT + USE SIGNAL + PORT\n  + LAYER met1 ( -70 -70 ) ( 70 70 ) + PLACED ( 0 100 ) N ;\nEND PINS\nSPECIALNETS 1 ;\n- VDD ( * VDD ) + USE POWER\n  + ROUTED met4 480 + SHAPE STRIPE ( 500 0 ) ( * 20000 )\n  NEW met1 0 + SHAPE STRIPE ( 500 0 ) v1 ;\nEND SPECIALNETS\nNETS 1 ;\n- n1 ( PIN in ) ( u1 A ) + USE SIGNAL\n  + ROUTED met1 ( 0 100 ) ( 300 * ) RECT ( -70 0 70 100 )\n  NEW met1 ( 300 100 ) v1 ;\nEND NETS\nEND DESIGN\n",
    read: Read::Tree(
        "design top /units 1000 /die ( 0 0 20000 20000 ) /row ROW_0 core 0 0 N 40 1 460 0 /track X 230 43 460 met1 /via v1 + VIARULE M1M4 + CUTSIZE 150 150 + LAYERS met1 via met4 /component u1 INV PLACED 0 0 N + SOURCE TIMING /component u2 INV PLACED 1380 0 FS /pin in n1 INPUT SIGNAL port met1 ( -70 -70 70 70 ) PLACED 0 100 N /special VDD * VDD POWER ROUTED path met4 480 STRIPE ( 500 0 ) ( 500 20000 ) path met1 0 STRIPE ( 500 0 ) v1 /net n1 PIN in u1 A SIGNAL ROUTED path met1 ( 0 100 ) ( 300 100 ) RECT -70 0 70 100 path met1 ( 300 100 ) v1 /",
        0,
        0,
    ),
}];
