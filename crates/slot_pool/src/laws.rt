ghost use Rattle.std.specs.Prelude.{ℕ, Bool, IsTrue};
ghost use Rattle.slot_pool.specs.Table.{Table, IsGood, CanUntake, is_live, taken, given, replaced, untaken};
ghost use Rattle.slot_pool.specs.Table.{FreeIdsAreVacant, NextIdsAreNew};
ghost use Rattle.slot_pool.specs.Table.{RecordsAfterTake, RecordsAfterGive, RecordsAfterReplace};

/// What every good table says of its free ids, and of the ids that takes will give. It does nothing.
#[tactic(auto, using(crate::proofs::GoodTables::free_ids_are_vacant, crate::proofs::GoodTables::next_ids_are_new))]
pub fn good_tables<T>()
    ensures free { (t : Table T) → IsGood t → FreeIdsAreVacant t }
    ensures next { (t : Table T) → IsGood t → NextIdsAreNew t }
{}

/// The moves keep a table good. It does nothing.
pub fn good_after_moves<T>()
    ensures take { (x : T) (t : Table T) → IsGood t → IsGood (taken x t) }
    ensures give { (id : ℕ) (t : Table T) → IsGood t → IsTrue (is_live t id) → IsGood (given id t) }
    ensures untake { (id : ℕ) (grew : Bool) (t : Table T) → IsGood t → CanUntake t id grew
        → IsGood (untaken id grew t) }
    ensures replace { (id : ℕ) (x : T) (t : Table T) → IsGood t → IsTrue (is_live t id)
        → IsGood (replaced id x t) }
{}

/// Which records stand where after the moves. It does nothing.
pub fn records_after_moves<T>()
    ensures take { (x : T) (t : Table T) → IsGood t → RecordsAfterTake x t }
    ensures give { (id : ℕ) (t : Table T) → IsTrue (is_live t id) → RecordsAfterGive id t }
    ensures replace { (id : ℕ) (x : T) (t : Table T) → IsTrue (is_live t id) → RecordsAfterReplace id x t }
{}
