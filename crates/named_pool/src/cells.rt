use crate::named::Named;
use name_index::ChainCells;
use odb_base::Steps;
use slot_pool::SlotPool;
use std::sync::ledger::Ledger;

/// An object in its slot, and the id that comes after it in the chain of its name's bucket, 0 for none.
#[derive(Drop)]
pub struct NameCell<R> {
    pub value: R,
    pub chain: u32,
}

/// The cells of an index: each slot with an object is one.
#[derive(Drop)]
pub struct NameCells<R> {
    pub pool: SlotPool<NameCell<R>>,
}

impl<R: Named> ChainCells for NameCells<R> {
    ghost use Rattle.named_pool.specs.Cells.{cell as cell_in, chain_of as chain_in, name_of as name_in, with_chain as with_chain_in};
    ghost use Rattle.named_pool.specs.Cells.{cell-none, cell-with_chain, chain_of-others, chain_of-set, name_of-with_chain};

    ghost cell = { cell_in };

    ghost name_of = { name_in R.own_name };

    ghost chain_of = { chain_in };

    ghost with_chain = { with_chain_in };

    fn name(&self, id: u32) -> &[u8] {
        self.pool.get(id).unwrap().value.name().bytes()
    }

    fn chain(&self, id: u32) -> u32 {
        self.pool.get(id).unwrap().chain
    }

    fn set_chain<L: Ledger>(&mut self, id: u32, next: u32, moves: &mut Steps<L>) {
        self.pool.change(id, moves).chain = next;
    }

    ghost none = { cell-none };

    ghost kept = { cell-with_chain };

    ghost named = { name_of-with_chain R.own_name };

    ghost set = { chain_of-set };

    ghost others = { chain_of-others };
}
