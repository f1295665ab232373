//! Laws about masters and their terminals. Each is a statement that the contract of a call with an empty body proves;
//! no call does anything.

ghost use Rattle.std.specs.Prelude.{List};
ghost use Rattle.library.specs.declared.master.Master.{Master};
ghost use Rattle.library.specs.Laws.{FoundTerminalsAreNamed, NamedTerminalsAreFound, TerminalsAreOfMasters};

/// What the places of terminals and their names say of each other.
pub fn masters_and_terminals()
    ensures terminals { (masters : List Master) → TerminalsAreOfMasters masters }
    ensures named { (master : Master) → NamedTerminalsAreFound master }
    ensures found { (master : Master) → FoundTerminalsAreNamed master }
{}
