ghost use Rattle.std.specs.Prelude.{◌≡◌, ◌+◌, ◌<◌, ◌≤◌, ◌++◌, ◌∷◌, [], None, IfOk, OnErr, OnOk, length, take};
ghost use Rattle.std.specs.Option.{option_copied, option_map};
ghost use Rattle.library.specs.Masters.{HasDistinctNames, find_master, master_at};

use crate::master::Master;
use named_list::NamedList;
use odb_base::MasterId;
use std::alloc::{AllocError, Global};
use std::marker::Model;

/// The greatest number of masters in a library.
pub const MASTER_LIMIT: u32 = 1_000_000;

/// The masters by id and by name. Contracts see the list of them in the order of their entry; the id of a
/// master is its place from 1. No two have one name, and there are at most [`MASTER_LIMIT`].
#[derive(Drop)]
pub struct Library {
    masters: NamedList<Master>,
}

impl Model for Library {
    ghost use Rattle.std.specs.Prelude.{◌≤◌, List, length};
    ghost use Rattle.library.specs.declared.master.Master.{Master};

    ghost Value = { List Master };

    ghost view = { λ l. l.masters };

    ghost invariant = { λ l. length l.masters ≤ 1000000 };
}

impl Library {
    /// A library without masters. It takes no memory.
    pub fn new(alloc: Global) -> Library
        ensures { result ≡ [] }
    {
        Library {
            masters: NamedList::new(alloc),
        }
    }

    /// How many masters there are.
    pub fn count(&self) -> u32
        ensures count { result ≡ length self.now }
        ensures limit { result ≤ 1000000 }
        ensures distinct { HasDistinctNames self.now }
    {
        self.masters.count()
    }

    /// The masters.
    pub fn masters(&self) -> &NamedList<Master>
        ensures { result.now ≡ self.now }
    {
        &self.masters
    }

    /// The master of this id, `None` where no master has it.
    pub fn master(&self, id: MasterId) -> Option<&Master>
        ensures { option_copied result ≡ master_at self.now id.0 }
    {
        self.masters.get(id.0)
    }

    /// The id of the master of this name, `None` where no master has it.
    pub fn find_master(&self, name: &[u8]) -> Option<MasterId>
        ensures { option_map (λ id. id.0) result ≡ find_master self.now name.now }
    {
        let id = self.masters.find(name)?;
        Some(MasterId(id))
    }

    /// Puts a master last, and gives its id. No master may have its name, and there must be fewer than
    /// [`MASTER_LIMIT`]. A refusal leaves the library as it was, and the master is dropped.
    pub fn add_master(&mut self, master: Master) -> Result<MasterId, AllocError>
        requires new { find_master self.old master.name ≡ None }
        requires room { length self.old < 1000000 }
        ensures ok { OnOk result (self.new ≡ self.old ++ master ∷ []) }
        ensures id { IfOk result (λ id. id.0 ≡ length self.old + 1) }
        ensures err { OnErr result (self.new ≡ self.old) }
    {
        let id = self.masters.push(master)?;
        Ok(MasterId(id))
    }

    /// Keeps so many first masters, of which there must be at least so many. It takes no memory.
    pub fn cut(&mut self, masters: u32)
        requires { masters ≤ length self.old }
        ensures { self.new ≡ take masters self.old }
    {
        self.masters.cut(masters);
    }
}
