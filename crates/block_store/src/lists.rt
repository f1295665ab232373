ghost use Rattle.std.specs.Prelude.{◌≡◌, ◌≤◌, ◌+◌, ◌∷◌, IfSome, IsTrue, length};
ghost use Rattle.odb_base.specs.Ids.{after, holds, placed, without};
ghost use Rattle.block_store.specs.Alone.{CanEnter};
ghost use Rattle.block_store.specs.Lists.{HasList, list_at, on_list};

use crate::block::Block;
use crate::ids::Change;
use crate::list_of::ListOf;
use odb_base::Steps;
use std::sync::ledger::Ledger;

// The lists of objects. These calls change a list alone, and not the field by which a member names the object.
impl Block {
    /// Puts a member in front of a list in which there is room for it.
    pub fn link<L: Ledger>(&mut self, list: ListOf, member: u32, moves: &mut Steps<L>)
        requires enter { CanEnter list member self.old.block }
        requires room { length (list_at list self.old.block) + 1 ≤ self.old.room.list }
        ensures block { self.new.block ≡ on_list (λ members. member ∷ members) list self.old.block }
        ensures cap { self.new.cap ≡ self.old.cap }
        ensures room { self.new.room ≡ record self.old.room { list = self.new.room.list } }
    {
        self.pools
            .change_list(list, Change::Enter { member }, moves);
    }

    /// Takes a member out of a list, and answers the member that stood after it.
    pub fn unlink<L: Ledger>(
        &mut self,
        list: ListOf,
        member: u32,
        moves: &mut Steps<L>,
    ) -> Option<u32>
        requires has { HasList list self.old.block }
        requires member { IsTrue (holds (list_at list self.old.block) member) }
        ensures next { result ≡ after (list_at list self.old.block) member }
        ensures block { self.new.block ≡ on_list (without member) list self.old.block }
        ensures cap { self.new.cap ≡ self.old.cap }
        ensures room { self.new.room ≡ record self.old.room { list = self.new.room.list } }
    {
        self.pools
            .change_list(list, Change::Leave { member }, moves)
    }

    /// Puts a member before another one of a list in which there is room for it, or last where none is named.
    pub fn relink<L: Ledger>(
        &mut self,
        list: ListOf,
        member: u32,
        next: Option<u32>,
        moves: &mut Steps<L>,
    )
        requires enter { CanEnter list member self.old.block }
        requires next { IfSome next (λ other. IsTrue (holds (list_at list self.old.block) other)) }
        requires room { length (list_at list self.old.block) + 1 ≤ self.old.room.list }
        ensures block { self.new.block ≡ on_list (placed member next) list self.old.block }
        ensures cap { self.new.cap ≡ self.old.cap }
        ensures room { self.new.room ≡ record self.old.room { list = self.new.room.list } }
    {
        self.pools
            .change_list(list, Change::Return { member, next }, moves);
    }
}
