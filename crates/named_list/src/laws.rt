//! Laws about lists of named things. Each is a statement that the contract of a call with an empty body proves; no
//! call does anything.

ghost use Rattle.std.specs.Prelude.{List};
ghost use Rattle.named_list.specs.Laws.{CutKeepsDistinct, CutKeepsIds, EnteringKeepsDistinct, FoundAreNamed, GrowingKeepsIds, GrowingKeepsNames, LastHasLastId, NamedAreFound, UnfoundAreAbsent};

use crate::named::Named;

/// What the identifiers of things and their names say of each other.
pub fn ids_and_names<T: Named + Drop>()
    ensures named { (things : List T) → NamedAreFound T.name_of things }
    ensures found { (things : List T) → FoundAreNamed T.name_of things }
    ensures absent { (things : List T) → UnfoundAreAbsent T.name_of things }
{}

/// What a list that grew or was cut says of the identifiers and names that it had.
pub fn ids_after_changes<T: Named + Drop>()
    ensures ids { (things more : List T) → GrowingKeepsIds things more }
    ensures names { (things more : List T) → GrowingKeepsNames T.name_of things more }
    ensures last { (things : List T) → LastHasLastId things }
    ensures cut { (things : List T) → CutKeepsIds things }
    ensures distinct_entered { (things : List T) → EnteringKeepsDistinct T.name_of things }
    ensures distinct_cut { (things : List T) → CutKeepsDistinct T.name_of things }
{}
