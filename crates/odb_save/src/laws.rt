ghost use Rattle.std.specs.Prelude.{◌≡◌, ◌≤◌, List, ℕ, Err, Ok, length};
ghost use Rattle.block_store.specs.Database.{Database, IsSoundDatabase, empty_database};
ghost use Rattle.odb_fields.specs.Bytes.{AreBytes};
ghost use Rattle.odb_save.specs.Examples.{empty_saved, one_gate, one_gate_saved, one_net, one_net_saved};
ghost use Rattle.odb_save.specs.Loading.{HasAnAnswer, HasOneAnswer};
ghost use Rattle.odb_save.specs.Save.{save_bytes};
ghost use Rattle.odb_save.specs.Spelled.{database_of, spelled};
ghost use Rattle.saved_fields.specs.Fault.{Fault, fault_place};
ghost use Rattle.saved_reader.specs.Saved.{saved_in};
ghost use Rattle.saved_reader.specs.declared.saved.Saved.{Saved};

/// The cap isn't saved: databases that differ in it alone have the same bytes. It does nothing.
pub fn cap_is_unsaved()
    ensures { (d : Database) (cap : ℕ) → save_bytes (record d { cap = cap }) ≡ save_bytes d }
{}

/// The bytes of three databases, as they are written out by hand: the empty one, one with a net, and one with a
/// master, an instance, a net that joins two terminals, and free identifiers. It does nothing.
pub fn examples()
    ensures empty { (cap : ℕ) → save_bytes (empty_database cap) ≡ empty_saved }
    ensures empty_length { length empty_saved ≡ 148 }
    ensures net { (cap : ℕ) → save_bytes (one_net cap) ≡ one_net_saved }
    ensures net_length { length one_net_saved ≡ 176 }
    ensures gate { (cap : ℕ) → save_bytes (one_gate cap) ≡ one_gate_saved }
{}

/// The saved bytes of a sound database are read as that database, all of it but the cap. It does nothing.
pub fn saved_bytes_are_read()
    ensures { (d : Database) → IsSoundDatabase d → saved_in d.cap (save_bytes d) ≡ Ok (spelled d) }
{}

/// Bytes that are read as a sound database are its saved bytes: no database has a second spelling. It does nothing.
pub fn read_bytes_are_saved()
    ensures { (cap : ℕ) (bytes : List ℕ) (s : Saved) → AreBytes bytes → saved_in cap bytes ≡ Ok s → IsSoundDatabase (database_of cap s) → bytes ≡ save_bytes (database_of cap s) }
{}

/// The place of a fault is at most the number of the bytes. It does nothing.
pub fn fault_places_are_within()
    ensures { (cap : ℕ) (bytes : List ℕ) (f : Fault) → saved_in cap bytes ≡ Err f → fault_place f ≤ length bytes }
{}

/// Loading the same bytes with the same cap comes to one answer. It does nothing.
pub fn loading_is_determined()
    ensures { (cap : ℕ) (bytes : List ℕ) → HasOneAnswer cap bytes }
{}

/// Loading bytes has an answer, want of memory aside: they spell a sound database, or there is a first fault. It does
/// nothing.
pub fn loading_has_an_answer()
    ensures { (cap : ℕ) (bytes : List ℕ) → cap ≤ 16777215 → AreBytes bytes → HasAnAnswer cap bytes }
{}
