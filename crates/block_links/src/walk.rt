ghost use Rattle.std.specs.Prelude.{◌≡◌};
ghost use Rattle.std.specs.Iterator.{YieldsFirst, item_count};
ghost use Rattle.slot_pool.specs.Table.{record_at};
ghost use Rattle.block_store.specs.Lists.{list_at, list_in};
ghost use Rattle.block_links.specs.Stores.{named};

use crate::block::Block;
use block_cells::{Links, ListOf};
use odb_base::InstId;
use std::marker::Model;

/// The members of a list that are left, in their order. Contracts see their list.
#[derive(Drop)]
pub struct Walk<'a> {
    left: Left<'a>,
}

// The members of a list of links, and the terminals of an instance.
#[derive(Drop)]
pub(crate) enum Left<'a> {
    Links(Links<'a>),
    Plain(&'a [u32]),
}

impl<'a> Model for Walk<'a> {
    ghost use Rattle.std.specs.Prelude.{ℕ, List};
    ghost use Rattle.block_links.specs.Walks.{left_members};

    ghost Value = { List ℕ };

    ghost view = { λ walk. left_members walk.left };
}

impl<'a> Iterator for Walk<'a> {
    type Item = u32;

    ghost next_gives = { YieldsFirst (λ members. members) };

    ghost remaining = { item_count (λ members. members) };

    fn next(&mut self) -> Option<u32> {
        match &mut self.left {
            Left::Links(members) => members.next(),
            Left::Plain(members) => {
                let (member, behind) = members.split_first()?;
                *members = behind;
                Some(*member)
            }
        }
    }
}

impl Block {
    /// The members of a list in their order. An object that isn't there has none, and so has one of a kind
    /// without such a list.
    pub fn walk(&self, list: ListOf) -> Walk<'_>
        ensures { result ≡ list_at (named list) self.now.block }
    {
        let left = match list {
            ListOf::InstTerms(inst) => Left::Plain(self.terminals(inst)),
            _ => Left::Links(self.pools.walk(list)),
        };
        Walk { left }
    }

    /// The terminals of an instance, in the order of its master's terminals. An instance that isn't there has none.
    pub fn terminals(&self, inst: InstId) -> &[u32]
        ensures { result.now ≡ list_in (λ e. e.fields.terminals) (record_at self.now.block.inst inst.0) }
    {
        match self.pools.inst(inst.0) {
            Some(record) => record.terminals.items(),
            None => &[],
        }
    }
}
