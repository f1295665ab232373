// Objects come by themselves, of whatever kind.
ghost use Rattle.std.specs.Prelude.{◌≡◌, ◌≤◌, IfSome, IsSome};
ghost use Rattle.block_records.specs.Record.{kind_of};
ghost use Rattle.block_store.specs.Alone.{IsNew};
ghost use Rattle.block_store.specs.Block.{free_in, is_empty};
ghost use Rattle.block_store.specs.Store.{room_of};
ghost use Rattle.edit_words.specs.Tag.{new_object};
ghost use Rattle.edit_words.specs.declared.memo.Memo.TheVariants as memo;
ghost use Rattle.steps_net.specs.Do.{made_in};

use block_store::block::Block;
use edit_words::{Memo, Step};
use odb_base::Steps;
use std::sync::ledger::Ledger;

/// Puts the object that a step makes and nothing beside it into its table, with empty lists.
pub fn make<L: Ledger>(block: &mut Block, step: Step, moves: &mut Steps<L>) -> Memo
    requires some { IsSome (new_object step) }
    requires name { IfSome (new_object step) (λ new. IsNew new.object block.old.block) }
    requires room { IfSome (new_object step) (λ new. 1 ≤ room_of (kind_of new.object) block.old.room) }
    ensures block { block.new.block ≡ made_in (new_object step) block.old.block }
    ensures memo { IfSome (new_object step) (λ new. result ≡ memo.Grown (is_empty (free_in (kind_of new.object) block.old.block)) 0) }
    ensures cap { block.new.cap ≡ block.old.cap }
{
    match step.into_object(block.allocator()) {
        Some(object) => {
            let taken = block.take(object, moves);
            Memo::Grown {
                object: taken.grew,
                terminals: 0,
            }
        }
        None => unreachable!(),
    }
}
