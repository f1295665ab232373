// Laws of finding by names. Each is the contract of a function that does nothing.

ghost use Rattle.std.specs.Prelude.{List, ℕ};
ghost use Rattle.slot_pool.specs.Table.{Table};
ghost use Rattle.named_pool.specs.NameLaws.{FoundHaveTheName, FreeNamesAreNotFound, NamedAreFound};

/// What finding by a name and the names of objects say of each other, in every table. It does nothing.
#[tactic(auto, using(crate::proofs::Finding::named_are_found))]
pub fn names_and_finding<R>()
    ensures free { (name_of : R → List ℕ) (t : Table R) → FreeNamesAreNotFound name_of t }
    ensures found { (name_of : R → List ℕ) (t : Table R) → FoundHaveTheName name_of t }
    ensures named { (name_of : R → List ℕ) (t : Table R) → NamedAreFound name_of t }
{}
