ghost use Rattle.std.specs.Prelude.{◌≡◌, ◌≤◌, ℕ, None, Some, IfErr, IfOk, OnOk};
ghost use Rattle.odb_base.specs.declared.codes.kind.Kind.{Kind as AnyKind};
ghost use Rattle.block_store.specs.Block.{slots_in};
ghost use Rattle.block_tables.specs.Causes.{IsCause};
ghost use Rattle.block_tables.specs.Places.{IsFirstFault};
ghost use Rattle.block_tables.specs.Prepared.{IsPrepared};
ghost use Rattle.block_tables.specs.Rules.{AreSoundParts, IsSoundHeader, IsSoundKind};

use crate::fault::TablesFault;
use crate::headers::is_sound_header;
use crate::judge::{Judge, is_sound_table};
use block_store::Tables;
use library::Library;
use odb_base::{Coded, Kind};
use std::alloc::{AllocError, Global};
use tech::Tech;

// Judges each part of the tables, in the order of places.
pub(crate) fn check(
    alloc: Global,
    tables: &Tables,
    tech: &Tech,
    library: &Library,
) -> Result<(), TablesFault>
    requires few { (k : AnyKind) → slots_in k tables.now ≤ 16777215 }
    ensures ok { OnOk result ((cap : ℕ) → ((k : AnyKind) → slots_in k tables.now ≤ cap) → AreSoundParts tech.now library.now cap tables.now) }
    ensures err { IfErr result (λ fault. (cap : ℕ) → ((k : AnyKind) → slots_in k tables.now ≤ cap) → IsCause tech.now library.now cap tables.now fault) }
{
    if is_sound_header(alloc, tables, tech, library)? {
        check_kinds(alloc, &Judge::new(alloc, tables, tech, library)?)
    } else {
        Err(TablesFault::Unsound { kind: None, id: 0 })
    }
}

// Judges each kind, in the order of their codes.
fn check_kinds(alloc: Global, judge: &Judge<'_>) -> Result<(), TablesFault>
    requires prepared { IsPrepared judge.now }
    requires few { (k : AnyKind) → slots_in k judge.now.tables.now ≤ 16777215 }
    ensures ok { OnOk result ((cap : ℕ) → ((k : AnyKind) → slots_in k judge.now.tables.now ≤ cap) → (k : AnyKind) → IsSoundKind judge.now.tech.now judge.now.library.now cap judge.now.tables.now k) }
    ensures err { IfErr result (λ fault. (cap : ℕ) → ((k : AnyKind) → slots_in k judge.now.tables.now ≤ cap) → IsSoundHeader judge.now.tech.now judge.now.library.now judge.now.tables.now → IsCause judge.now.tech.now judge.now.library.now cap judge.now.tables.now fault) }
{
    for kind in Kind::every() {
        match fault_in(alloc, judge, *kind)? {
            None => {}
            Some(id) => return Err(TablesFault::Unsound {
                kind: Some(*kind),
                id,
            }),
        }
    }
    Ok(())
}

// The first place of a kind that isn't sound: 0 for the table.
fn fault_in(alloc: Global, judge: &Judge<'_>, kind: Kind) -> Result<Option<u32>, AllocError>
    requires prepared { IsPrepared judge.now }
    requires few { slots_in kind judge.now.tables.now ≤ 16777215 }
    ensures none { IfOk result (λ found. found ≡ None → (cap : ℕ) → slots_in kind judge.now.tables.now ≤ cap → IsSoundKind judge.now.tech.now judge.now.library.now cap judge.now.tables.now kind) }
    ensures first { IfOk result (λ found. (id : ℕ) → found ≡ Some id → (cap : ℕ) → slots_in kind judge.now.tables.now ≤ cap → IsFirstFault judge.now.tech.now judge.now.library.now cap judge.now.tables.now kind id) }
{
    if is_sound_table(alloc, judge.tables, kind)? {
        Ok(judge.first_unsound(kind))
    } else {
        Ok(Some(0))
    }
}
