ghost use Rattle.std.specs.Prelude.{◌≡◌, ◌≤◌, ◌+◌, ◌∷◌, IfSome, IsTrue, length};
ghost use Rattle.odb_base.specs.Ids.{after, holds, placed, without};
ghost use Rattle.linked_pool.specs.Changes.{changed, next_after};
ghost use Rattle.block_store.specs.Alone.{CanEnter};
ghost use Rattle.block_store.specs.Lists.{HasList, list_at, on_list};
ghost use Rattle.block_links.specs.Changing.{CanChangeIn};
ghost use Rattle.block_links.specs.Stores.{named};

use crate::block::Block;
use block_cells::ListOf;
use linked_pool::Change;
use odb_base::Steps;
use std::sync::ledger::Ledger;

// The lists of objects. These calls change a list alone, and not the field by which a member names the object.
impl Block {
    /// Puts a member in front of a list.
    pub fn link<L: Ledger>(&mut self, list: ListOf, member: u32, moves: &mut Steps<L>)
        requires enter { CanEnter (named list) member self.old.block }
        ensures block { self.new.block ≡ on_list (λ members. member ∷ members) (named list) self.old.block }
        ensures cap { self.new.cap ≡ self.old.cap }
        ensures room { self.new.room ≡ self.old.room }
    {
        self.change_list(list, Change::Enter { member }, moves);
    }

    /// Takes a member out of a list, and answers the member that stood after it.
    pub fn unlink<L: Ledger>(
        &mut self,
        list: ListOf,
        member: u32,
        moves: &mut Steps<L>,
    ) -> Option<u32>
        requires has { HasList (named list) self.old.block }
        requires member { IsTrue (holds (list_at (named list) self.old.block) member) }
        ensures next { result ≡ after (list_at (named list) self.old.block) member }
        ensures block { self.new.block ≡ on_list (without member) (named list) self.old.block }
        ensures cap { self.new.cap ≡ self.old.cap }
        ensures room { self.new.room ≡ self.old.room }
    {
        self.change_list(list, Change::Leave { member }, moves)
    }

    /// Puts a member before another one of a list, or last where none is named.
    pub fn relink<L: Ledger>(
        &mut self,
        list: ListOf,
        member: u32,
        next: Option<u32>,
        moves: &mut Steps<L>,
    )
        requires enter { CanEnter (named list) member self.old.block }
        requires next { IfSome next (λ other. IsTrue (holds (list_at (named list) self.old.block) other)) }
        ensures block { self.new.block ≡ on_list (placed member next) (named list) self.old.block }
        ensures cap { self.new.cap ≡ self.old.cap }
        ensures room { self.new.room ≡ self.old.room }
    {
        self.change_list(list, Change::Return { member, next }, moves);
    }

    // Changes a list by one member, and answers the member that stood after one that left: the links, and then the head.
    fn change_list<L: Ledger>(
        &mut self,
        list: ListOf,
        change: Change,
        moves: &mut Steps<L>,
    ) -> Option<u32>
        requires has { HasList (named list) self.old.block }
        requires can { CanChangeIn change (named list) self.old.block }
        ensures next { result ≡ next_after change (list_at (named list) self.old.block) }
        ensures block { self.new.block ≡ on_list (changed change) (named list) self.old.block }
        ensures cap { self.new.cap ≡ self.old.cap }
        ensures room { self.new.room ≡ self.old.room }
    {
        let mut head = self.pools.head(list);
        let next = self.pools.change_links(list, &mut head, change, moves);
        self.pools.set_head(list, head, moves);
        next
    }
}
