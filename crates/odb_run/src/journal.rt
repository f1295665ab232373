ghost use Rattle.std.specs.Prelude.{◌≡◌, ◌+◌, ◌≤◌, ◌++◌, [], ◌∷◌, None, Some, OnOk, length, IfSome, IfNone};

use edit_words::{Memo, Step};
use std::alloc::{AllocError, Global};
use std::marker::Model;

/// A step that was done, with what it moved out of the block.
#[derive(Debug, Drop)]
pub struct Entry {
    pub step: Step,
    pub memo: Memo,
}

/// The steps of an ECO in the order in which they were done.
#[derive(Debug, Drop)]
pub struct Journal {
    entries: Vec<Entry>,
}

impl Model for Journal {
    ghost use Rattle.std.specs.Prelude.{◌-◌, length, vec_capacity};
    ghost use Rattle.odb_run.specs.Noted.{Noted};

    ghost Value = { Noted };

    ghost view = { λ j. record { entries = j.entries.items; spare = vec_capacity j.entries - length j.entries.items } };
}

impl Journal {
    /// A journal without steps. It takes no memory.
    pub fn new(alloc: Global) -> Journal
        ensures { result.entries ≡ [] }
    {
        Journal {
            entries: Vec::new(alloc),
        }
    }

    /// The number of steps.
    pub fn len(&self) -> usize
        ensures { result ≡ length self.now.entries }
    {
        self.entries.len()
    }

    /// Makes room for one more step.
    pub fn reserve(&mut self) -> Result<(), AllocError>
        ensures ok { OnOk result (1 ≤ self.new.spare) }
        ensures entries { self.new.entries ≡ self.old.entries }
    {
        self.entries.reserve(1)
    }

    /// Puts a step last.
    pub fn push(&mut self, step: Step, memo: Memo)
        requires { 1 ≤ self.old.spare }
        ensures { self.new.entries ≡ self.old.entries ++ record { step = step; memo = memo } ∷ [] }
    {
        self.entries.push_reserved(Entry { step, memo });
    }

    /// Takes the last step off, if there is one.
    pub fn pop(&mut self) -> Option<Entry>
        ensures some { IfSome result (λ entry. self.old.entries ≡ self.new.entries ++ entry ∷ []) }
        ensures none { IfNone result ((self.old.entries ≡ []) × (self.new.entries ≡ [])) }
        ensures spare { IfSome result (λ entry. 1 ≤ self.new.spare) }
    {
        self.entries.pop()
    }
}
