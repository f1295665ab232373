//! Scripts with their replies.

use odb_run::Status;

/// What `save -` shows at the end of a script.
#[derive(Clone, Copy)]
pub enum Saved {
    Nothing,
    NoNet,
    OneNet,
}

/// A script, its replies, with the saved bytes last, and the status of its run.
pub struct Row {
    pub script: &'static [u8],
    pub replies: &'static [u8],
    pub saved: Saved,
    pub status: Status,
}

// Each with ample memory, so none of them ends for want of it.
pub const ROWS: [Row; 28] = [
    Row {
        script: b"",
        replies: b"",
        saved: Saved::Nothing,
        status: Status::Done,
    },
    // A net that an undo takes away leaves no trace in the saved bytes.
    Row {
        script: b"new_net a\neco_begin\nnew_net b\neco_undo\nsave -\n",
        replies: b"ok 1 1 0 0 0\nok\nok 2 1 0 0 0\nok 1\n",
        saved: Saved::OneNet,
        status: Status::Done,
    },
    // Names.
    Row {
        script: b"new_net a\nnew_net a\nnew_net ;\nnew_net b*\nnew_net b\n",
        replies: b"ok 1 1 0 0 0\nrefused 6 NameTaken 1\nrefused 4 BadName 1\nrefused 4 BadName 1\nok 2 1 0 0 0\n",
        saved: Saved::Nothing,
        status: Status::Refused,
    },
    // Names that differ late, and names of which one begins the other.
    Row {
        script: b"new_net ab\nnew_net ac\nnew_net a\nnew_net abc\nnew_net ac\n",
        replies: b"ok 1 1 0 0 0\nok 2 1 0 0 0\nok 3 1 0 0 0\nok 4 1 0 0 0\nrefused 6 NameTaken 2\n",
        saved: Saved::Nothing,
        status: Status::Refused,
    },
    // Lines that are no command.
    Row {
        script: b"frob\nnew_net\nnew_net a b\nsave\nsave .f\neco_begin x\n",
        replies: b"refused 21 UnknownCommand\nrefused 22 BadWords\nrefused 22 BadWords\nrefused 22 BadWords\nrefused 22 BadWords\nrefused 22 BadWords\n",
        saved: Saved::Nothing,
        status: Status::Refused,
    },
    // Commands that the ECO state doesn't allow.
    Row {
        script: b"eco_undo\neco_begin\neco_begin\nmaster M 1 1\neco_undo\neco_undo\n",
        replies: b"refused 24 WrongState None\nok\nrefused 24 WrongState Open\nrefused 24 WrongState Open\nok 0\nrefused 24 WrongState None\n",
        saved: Saved::Nothing,
        status: Status::Refused,
    },
    // Blank lines and comments have no reply; words are parted by spaces and tabs.
    Row {
        script: b"\n  \t\n# new_net a\n \t#x\n\t new_net\t \ta \n",
        replies: b"ok 1 1 0 0 0\n",
        saved: Saved::Nothing,
        status: Status::Done,
    },
    // A carriage return is a byte like others.
    Row {
        script: b"eco_begin\r\nnew_net a\r\n",
        replies: b"refused 21 UnknownCommand\nrefused 4 BadName 1\n",
        saved: Saved::Nothing,
        status: Status::Refused,
    },
    // A refused edit keeps no slot, and an undo takes away a slot that was added.
    Row {
        script: b"eco_begin\nnew_net a\nnew_net a\nnew_net ;\neco_undo\nsave -\n",
        replies: b"ok\nok 1 1 0 0 0\nrefused 6 NameTaken 1\nrefused 4 BadName 1\nok 1\n",
        saved: Saved::NoNet,
        status: Status::Refused,
    },
    // Freed identifiers come again, the last that was freed first, and an undo puts them back in their order.
    Row {
        script: b"new_net a\nnew_net b\nnew_net c\ndestroy net 2\ndestroy net 1\neco_begin\nnew_net d\nnew_net e\neco_undo\nfree net\n",
        replies: b"ok 1 1 0 0 0\nok 2 1 0 0 0\nok 3 1 0 0 0\nok 0 1 0 0 0\nok 0 1 0 0 0\nok\nok 1 1 0 0 0\nok 2 1 0 0 0\nok 2\nok 3 1 1 2\n",
        saved: Saved::Nothing,
        status: Status::Done,
    },
    // A terminal that was parted comes back in its place.
    Row {
        script: b"master M 10 10 A INPUT B INPUT C OUTPUT\nnew_inst i M\nnew_net n\njoin iterm 1 1\njoin iterm 2 1\njoin iterm 3 1\neco_begin\npart iterm 2\nterms 1\neco_undo\nterms 1\n",
        replies: b"ok 1\nok 1 1 0 0 0\nok 1 1 0 0 0\nok 0 1 0 0 0\nok 0 1 0 0 0\nok 0 1 0 0 0\nok\nok 0 1 0 0 0\nok 2\niterm 3 i C\niterm 1 i A\nok 1\nok 3\niterm 3 i C\niterm 2 i B\niterm 1 i A\n",
        saved: Saved::Nothing,
        status: Status::Done,
    },
    // An instance that goes takes its terminals along, and all come back.
    Row {
        script: b"master M 10 10 A INPUT B INPUT C OUTPUT\nnew_inst i M\nnew_net n\njoin iterm 1 1\njoin iterm 2 1\neco_begin\ndestroy inst 1\ncounts\nfree iterm\nterms 1\neco_undo\ncounts\nfree iterm\nterms 1\n",
        replies: b"ok 1\nok 1 1 0 0 0\nok 1 1 0 0 0\nok 0 1 0 0 0\nok 0 1 0 0 0\nok\nok 0 1 0 0 0\nok 0 0 1 0 0 0 0 0 0 0 0 0\nok 3 0 1 2 3\nok 0\nok 3\nok 1 3 1 0 0 0 0 0 0 0 0 0\nok 3 3\nok 2\niterm 2 i B\niterm 1 i A\n",
        saved: Saved::Nothing,
        status: Status::Done,
    },
    // A swap keeps the terminals and their nets.
    Row {
        script: b"master M 10 10 A INPUT B INPUT C OUTPUT\nmaster M2 10 10 C OUTPUT A INPUT B INPUT\nnew_inst i M\nnew_net n\njoin iterm 1 1\neco_begin\nswap 1 M2\nterms 1\neco_undo\nterms 1\n",
        replies: b"ok 1\nok 2\nok 1 1 0 0 0\nok 1 1 0 0 0\nok 0 1 0 0 0\nok\nok 0 1 0 0 0\nok 1\niterm 1 i A\nok 1\nok 1\niterm 1 i A\n",
        saved: Saved::Nothing,
        status: Status::Done,
    },
    // After a swap the terminals stand in the order of the new master, and so their slots are freed in it.
    Row {
        script: b"master M 10 10 A INPUT B INPUT C OUTPUT\nmaster M2 10 10 C OUTPUT A INPUT B INPUT\nnew_inst i M\neco_begin\nswap 1 M2\ndestroy inst 1\nfree iterm\neco_undo\ndestroy inst 1\nfree iterm\n",
        replies: b"ok 1\nok 2\nok 1 1 0 0 0\nok\nok 0 1 0 0 0\nok 0 1 0 0 0\nok 3 0 3 1 2\nok 2\nok 0 1 0 0 0\nok 3 0 1 2 3\n",
        saved: Saved::Nothing,
        status: Status::Done,
    },
    // A swap for a master without a terminal of that name is refused.
    Row {
        script: b"master M 10 10 A INPUT B INPUT C OUTPUT\nmaster M3 10 10 A INPUT B INPUT\nnew_inst i M\neco_begin\nswap 1 M3\neco_undo\n",
        replies: b"ok 1\nok 2\nok 1 1 0 0 0\nok\nrefused 9 TermsDiffer C\nok 0\n",
        saved: Saved::Nothing,
        status: Status::Refused,
    },
    // Terminals that are joined, or aren't.
    Row {
        script: b"master M 10 10 A INPUT B INPUT C OUTPUT\nnew_inst i M\nnew_net n\njoin iterm 1 1\njoin iterm 1 1\npart iterm 2\nnew_net n\nnew_net ;\n",
        replies: b"ok 1\nok 1 1 0 0 0\nok 1 1 0 0 0\nok 0 1 0 0 0\nrefused 7 Joined 1\nrefused 8 NotJoined\nrefused 6 NameTaken 1\nrefused 4 BadName 1\n",
        saved: Saved::Nothing,
        status: Status::Refused,
    },
    // Objects that aren't there.
    Row {
        script: b"destroy net 1\nrename inst 7 a\nswap 1 M\nplace inst 1 PLACED 0 0 N\nset_use net 1 CLOCK\nset_dir 1 INPUT\nmake_special 1\nnew_net n\njoin iterm 1 1\njoin bterm 1 9\npart bterm 4294967295\nterms 2\nnew_bterm p 2\n",
        replies: b"refused 2 NotLive net 1\nrefused 2 NotLive inst 7\nrefused 2 NotLive inst 1\nrefused 2 NotLive inst 1\nrefused 2 NotLive net 1\nrefused 2 NotLive bterm 1\nrefused 2 NotLive net 1\nok 1 1 0 0 0\nrefused 2 NotLive iterm 1\nrefused 2 NotLive bterm 1\nrefused 2 NotLive bterm 4294967295\nrefused 2 NotLive net 2\nrefused 2 NotLive net 2\n",
        saved: Saved::Nothing,
        status: Status::Refused,
    },
    // Values that a line doesn't take, the first of them.
    Row {
        script: b"master M 10 10 A INPUT B INPUT C OUTPUT\nnew_inst i M\nnew_bterm p\nnew_net n\nrename iterm 1 a\nplace net 1 PLACED 0 0 N\nplace inst 1 UNPLACED 1 0 N\nplace inst 1 PLACED 2000000001 0 N\nplace inst 1 PLACED 0 -2000000001 N\nset_use iterm 1 CLOCK\nset_dir 1 TRISTATE\ndestroy iterm 1\njoin net 1 1\npart inst 1\n",
        replies: b"ok 1\nok 1 1 0 0 0\nok 1 1 0 0 0\nok 1 1 0 0 0\nrefused 3 BadValue 1\nrefused 3 BadValue 1\nrefused 3 BadValue 3\nrefused 3 BadValue 4\nrefused 3 BadValue 5\nrefused 3 BadValue 1\nrefused 3 BadValue 2\nrefused 3 BadValue 1\nrefused 3 BadValue 1\nrefused 3 BadValue 1\n",
        saved: Saved::Nothing,
        status: Status::Refused,
    },
    // Names that are unlawful, unknown or taken.
    Row {
        script: b"master M 10 10 A INPUT B INPUT C OUTPUT\nnew_inst * M\nnew_inst i N\nnew_inst i M\nnew_inst i M\nswap 1 N\nrename inst 1 i\nrename inst 1 (\nrename inst 1 j\nfind inst j\nfind inst i\nnew_bterm j\nfind bterm j\n",
        replies: b"ok 1\nrefused 4 BadName 1\nrefused 5 Unknown 2\nok 1 1 0 0 0\nrefused 6 NameTaken 1\nrefused 5 Unknown 2\nrefused 6 NameTaken 1\nrefused 4 BadName 3\nok 0 1 0 0 0\nok 1\nok 0\nok 1 1 0 0 0\nok 1\n",
        saved: Saved::Nothing,
        status: Status::Refused,
    },
    // A net becomes special once.
    Row {
        script: b"new_net a\nmake_special 1\nmake_special 1\n",
        replies: b"ok 1 1 0 0 0\nok 0 1 0 0 0\nrefused 13 Special\n",
        saved: Saved::Nothing,
        status: Status::Refused,
    },
    // Masters.
    Row {
        script: b"master M 10 10 A INPUT B INPUT C OUTPUT\nmaster M 10 10 A INPUT B INPUT C OUTPUT\nmaster N 1 1 A INPUT A INPUT\nmaster N 1 1 ; INPUT\nmaster N -1 1\nmaster O 2000000000 -2000000001\nmaster O 2147483648 1\n",
        replies: b"ok 1\nrefused 28 LefBuild NameTaken 1\nrefused 28 LefBuild BadPart 1\nrefused 22 BadWords\nok 2\nrefused 28 LefBuild BadPart 1\nrefused 22 BadWords\n",
        saved: Saved::Nothing,
        status: Status::Refused,
    },
    // Listings.
    Row {
        script: b"new_net b\nnew_net a\nnew_bterm p 1\nlist net\nlist bterm\nlist iterm\nterms 1\ncounts\n",
        replies: b"ok 1 1 0 0 0\nok 2 1 0 0 0\nok 1 1 0 0 0\nok 2\n1 b\n2 a\nok 1\n1 p\nok 0\nok 1\nbterm 1 p\nok 0 0 2 1 0 0 0 0 0 0 0 0\n",
        saved: Saved::Nothing,
        status: Status::Done,
    },
    // A file is saved and loaded, and nothing that came between is left.
    Row {
        script: b"new_net a\nsave f\nnew_net b\nload f\nlist net\n",
        replies: b"ok 1 1 0 0 0\nok 176\nok 2 1 0 0 0\nok 176\nok 1\n1 a\n",
        saved: Saved::Nothing,
        status: Status::Done,
    },
    // A file that isn't there, and one that is saved while an ECO stands.
    Row {
        script: b"load nofile\nnew_net a\neco_begin\nload f\nsave f\neco_undo\nload f\nload f.2\nsave -\n",
        replies: b"refused 25 NoFile\nok 1 1 0 0 0\nok\nrefused 24 WrongState Open\nok 176\nok 0\nok 176\nrefused 25 NoFile\n",
        saved: Saved::OneNet,
        status: Status::Refused,
    },
    // Coordinates are at most 2,000,000,000, a number has at most 18 digits, and an identifier 32 bits.
    Row {
        script: b"master M 1 1\nnew_inst i M\nplace inst 1 PLACED 2000000000 -2000000000 N\nplace inst 1 PLACED 2000000001 0 N\nplace inst 1 PLACED 0 -2000000001 N\nplace inst 1 PLACED 999999999999999999 0 N\nplace inst 1 PLACED 1000000000000000000 0 N\nplace inst 1 PLACED 0 -999999999999999999 N\nplace inst 1 PLACED 0 -1000000000000000000 N\ndestroy net 4294967295\ndestroy net 4294967296\n",
        replies: b"ok 1\nok 1 1 0 0 0\nok 0 1 0 0 0\nrefused 3 BadValue 4\nrefused 3 BadValue 5\nrefused 3 BadValue 4\nrefused 22 BadWords\nrefused 3 BadValue 5\nrefused 22 BadWords\nrefused 2 NotLive net 4294967295\nrefused 22 BadWords\n",
        saved: Saved::Nothing,
        status: Status::Refused,
    },
    // Units are at most 100,000, and the sizes of a master and of a site 2,000,000,000.
    Row {
        script: b"units 100001\nunits 100000\nmaster M 2000000000 -2000000000\nmaster N 2000000001 0\nsite s CORE 2000000000 -2000000000\nsite t CORE 0 -2000000001\n",
        replies: b"refused 28 LefBuild BadPart 1\nok 0\nok 1\nrefused 28 LefBuild BadPart 1\nok 1\nrefused 28 LefBuild BadPart 1\n",
        saved: Saved::Nothing,
        status: Status::Refused,
    },
    // Rows: what is refused, in the order of the codes and of the words.
    Row {
        script: b"site unit CORE 460 2720\nnew_row r unit 2000000001 0 N 0 0\nnew_row r unit 0 -2000000001 N\nnew_row r unit 0 0 N 0 1\nnew_row r unit 0 0 N 1 1000001\nnew_row r unit 0 0 N 1 1 2000000001 0\nnew_row r unit 0 0 N 1 1 0 -2000000001\nnew_row ; unit 0 0 N -1 1\nnew_row ; pad 0 0 N\nnew_row r pad 0 0 N\nnew_row r unit 0 0 N\nnew_row r unit 0 0 N\nplace row 1 PLACED 0 0 N\n",
        replies: b"ok 1\nrefused 3 BadValue 3\nrefused 3 BadValue 4\nrefused 3 BadValue 6\nrefused 3 BadValue 7\nrefused 3 BadValue 8\nrefused 3 BadValue 9\nrefused 3 BadValue 6\nrefused 4 BadName 1\nrefused 5 Unknown 2\nok 1 1 0 0 0\nrefused 6 NameTaken 1\nrefused 3 BadValue 1\n",
        saved: Saved::Nothing,
        status: Status::Refused,
    },
    // Rows are made, renamed, destroyed, saved and loaded, and an undo takes all of it back.
    Row {
        script: b"site unit CORE 460 2720\nnew_row a unit 0 0 N\nnew_row b unit 0 2720 FS 1000 1\nnew_row c unit -5 5440 N 2 3 460 2720\neco_begin\nrename row 1 d\ndestroy row 2\nnew_row b unit 0 0 S\nlist row\nfree row\nsave f\neco_undo\nlist row\nload f\nlist row\nfind row b\ncounts\n",
        replies: b"ok 1\nok 1 1 0 0 0\nok 2 1 0 0 0\nok 3 1 0 0 0\nok\nok 0 1 0 0 0\nok 0 1 0 0 0\nok 2 1 0 0 0\nok 3\n1 d\n2 b\n3 c\nok 3 3\nok 286\nok 3\nok 3\n1 a\n2 b\n3 c\nok 286\nok 3\n1 d\n2 b\n3 c\nok 2\nok 0 0 0 0 0 3 0 0 0 0 0 0\n",
        saved: Saved::Nothing,
        status: Status::Done,
    },
];
