ghost use Rattle.std.specs.Prelude.{◌≡◌, ◌↔◌, ◌≤◌, ◌∷◌, [], None, IfOk, IsTrue, OnErr, OnOk};
ghost use Rattle.edits.specs.Plan.{CanAll, made as made_by};
ghost use Rattle.steps_net.specs.Can.{Can};
ghost use Rattle.steps_net.specs.Room.{lacks};

use crate::journal::Journal;
use crate::outcome::Outcome;
use crate::steps::{do_noted, do_unnoted, undo_all};
use block_store::Database;
use edit_words::{Edit, Refusal, Step, TechPart};
use edits::plan;
use odb_base::{EcoState, Steps, put_in};
use odb_save::{LoadFault, load};
use std::alloc::{AllocError, Global};
use std::marker::Model;
use std::sync::ledger::Ledger;
use tech_parts::{Added, PartFault, add_parts};

/// The ECO state isn't one from which the call goes.
#[derive(Clone, Copy, Debug, PartialEq, Eq)]
pub struct WrongState {
    pub is: EcoState,
}

/// Why an ECO isn't undone.
#[derive(Clone, Copy, Debug, PartialEq, Eq)]
pub enum UndoFault {
    /// No ECO stands.
    WrongState { is: EcoState },
    /// There is no memory to put a member back into its list. The ECO stands, with the steps that are left.
    Memory,
}

/// Why parts aren't added.
#[derive(Clone, Copy, Debug, PartialEq, Eq)]
pub enum AddFault {
    /// An ECO stands.
    WrongState { is: EcoState },
    /// The technology or the library doesn't take one.
    Part(PartFault),
}

/// A database under edits, and the ECO that stands, if one does. Contracts see a state of the copying machine:
/// the journal stands for the copy from which its steps lead to the database.
#[derive(Drop)]
pub struct Session {
    database: Database,
    journal: Option<Journal>,
}

impl Model for Session {
    ghost use Rattle.odb_run.specs.Machine.{State};

    ghost Value = { State };

    ghost use Rattle.odb_run.specs.Journal.{LeadsBack, eco_of};

    ghost view = { λ s. record { database = s.database; eco = eco_of s.database s.journal } };

    ghost invariant = { λ s. LeadsBack s.journal s.database };
}

impl Session {
    ghost use Rattle.odb_run.specs.Machine.{after_edit, start};
    ghost use Rattle.odb_run.specs.Sessions.{Adds, Begins, Edits, IsPartDone, Puts, Undoes};

    /// A session over the empty database, whose tables have at most `cap` slots each.
    #[tactic(auto, unfolding(crate::specs::Machine::start))]
    pub fn new(alloc: Global, cap: u32) -> Result<Session, AllocError>
        requires { cap ≤ 16777215 }
        ensures { IfOk result (λ session. session ≡ start cap) }
    {
        Ok(Session {
            database: Database::new(alloc, cap)?,
            journal: None,
        })
    }

    /// The database.
    pub fn database(&self) -> &Database
        ensures { result.now ≡ self.now.database }
    {
        &self.database
    }

    /// Does an edit. Refused, it leaves everything as it was. For want of memory, the first of the plan's
    /// steps may be done, and are noted.
    pub fn edit<L: Ledger>(
        &mut self,
        alloc: Global,
        edit: &Edit,
        moves: &mut Steps<L>,
    ) -> Result<Outcome, Refusal>
        ensures { Edits self.old edit.now result self.new }
    {
        let db = &self.database;
        let steps = plan(alloc, &db.block, &db.tech, &db.library, edit)?;
        let id = made(&steps);
        self.accept(steps, moves)?;
        Ok(Outcome {
            id,
            accepted: 1,
            refused: 0,
            deep: 0,
            many: 0,
        })
    }

    // Does the steps of a plan in their order.
    fn accept<L: Ledger>(
        &mut self,
        mut steps: Vec<Step>,
        moves: &mut Steps<L>,
    ) -> Result<(), AllocError>
        requires { CanAll self.old.database.tech self.old.database.library self.old.database.cap self.old.database.block steps.items }
        ensures ok { OnOk result (self.new ≡ after_edit steps.items self.old) }
        ensures err { OnErr result (IsPartDone steps.items self.old self.new) }
    {
        steps.reverse();
        while let Some(step) = steps.pop() {
            self.do_step(step, moves)?;
        }
        Ok(())
    }

    // Does a step, and notes it with the ECO that stands. For want of memory nothing is done.
    fn do_step<L: Ledger>(&mut self, step: Step, moves: &mut Steps<L>) -> Result<(), AllocError>
        requires can { Can self.old.database.tech self.old.database.library self.old.database.block step }
        requires room { lacks step self.old.database.cap self.old.database.block ≡ None }
        ensures ok { OnOk result (self.new ≡ after_edit (step ∷ []) self.old) }
        ensures err { OnErr result (self.new ≡ self.old) }
    {
        match &mut self.journal {
            None => do_unnoted(&mut self.database, step, moves),
            Some(journal) => do_noted(&mut self.database, journal, step, moves),
        }
    }

    /// Enters parts into the technology and the library. A refusal, and want of memory, leave everything as it was.
    pub fn add_parts(&mut self, parts: Vec<TechPart>) -> Result<Added, AddFault>
        ensures { Adds self.old parts.items self.old.eco result self.new }
    {
        if self.journal.is_some() {
            return Err(AddFault::WrongState { is: EcoState::Open });
        }
        match add_parts(&mut self.database, parts) {
            Ok(added) => Ok(added),
            Err(fault) => Err(AddFault::Part(fault)),
        }
    }

    /// Whether no ECO stands.
    pub fn is_without_eco(&self) -> bool
        ensures { IsTrue result ↔ (self.now.eco ≡ None) }
    {
        self.journal.is_none()
    }

    /// Puts the database of saved bytes, with the cap of the one that stands, where no ECO stands. A refusal leaves
    /// everything as it was.
    pub fn load(&mut self, alloc: Global, bytes: &[u8]) -> Result<(), LoadFault>
        requires { self.old.eco ≡ None }
        ensures puts { Puts self.old bytes.now result self.new }
    {
        let database = load(alloc, bytes, self.database.block.cap())?;
        put_in(&mut self.database, database);
        Ok(())
    }

    /// Opens an ECO. It takes no memory.
    pub fn eco_begin(&mut self, alloc: Global) -> Result<(), WrongState>
        ensures { Begins self.old self.old.eco result self.new }
    {
        match &self.journal {
            Some(_) => Err(WrongState { is: EcoState::Open }),
            None => {
                put_in(&mut self.journal, Some(Journal::new(alloc)));
                Ok(())
            }
        }
    }

    /// Takes back all steps of the ECO, and answers how many they were. For want of memory the ECO stands, with
    /// the steps that are left.
    pub fn eco_undo<L: Ledger>(&mut self, moves: &mut Steps<L>) -> Result<u64, UndoFault>
        ensures { Undoes self.old self.old.eco result self.new }
    {
        match &mut self.journal {
            None => Err(UndoFault::WrongState { is: EcoState::None }),
            Some(journal) => {
                let count = journal.len() as u64;
                if undo_all(&mut self.database, journal, moves).is_err() {
                    return Err(UndoFault::Memory);
                }
                put_in(&mut self.journal, None);
                Ok(count)
            }
        }
    }
}

// The identifier of the object that the steps of a plan make, 0 where they make none.
fn made(steps: &[Step]) -> u32
    ensures { result ≡ made_by steps.now }
{
    match steps.first() {
        Some(step) => match step.tag().new_object() {
            Some((_, id)) => id,
            None => 0,
        },
        None => 0,
    }
}
