ghost use Rattle.std.specs.Prelude.{◌≡◌};

use crate::needs::needs_layer;
use ld_forms::{Extent, Judged, Kept, Place, is_semicolon};
use ld_reader::{Begun, Language, Stop};
use lef_drafts::{Closed, Draft};
use lef_forms::{Class, Form, Keyword, LefKind, Statement, judge};
use lef_tree::{LefItem, LefTree};
use odb_base::List;
use std::alloc::{AllocError, Global};
use std::mem;

/// What was read of a LEF text so far.
#[derive(Drop)]
pub struct SoFar {
    /// The items that are whole.
    pub items: List<LefItem>,
    /// How many parts were passed over or left out. It stops at 2^64 - 1.
    pub passed: u64,
    /// The section that is open.
    pub draft: Draft,
    /// `END LIBRARY` was read.
    pub done: bool,
}

impl SoFar {
    ghost use Rattle.std.specs.Prelude.{OnOk};
    ghost use Rattle.lef_reader.specs.Reading.{begun_by, closed_of, closing, end_of, start, taken, tree_of};
    ghost use Rattle.ld_reader.specs.Rules.{Gives};

    /// Before the first word of a text. It takes no memory.
    pub fn new(alloc: Global) -> SoFar
        ensures { result ≡ start }
    {
        SoFar {
            items: List::new(alloc),
            passed: 0,
            draft: Draft::Top,
            done: false,
        }
    }

    /// The items that were read, and how many parts were passed over.
    pub fn into_tree(self) -> LefTree
        ensures { result ≡ tree_of self }
    {
        let SoFar {
            items,
            passed,
            draft,
            done: _,
        } = self;
        drop(draft);
        LefTree { items, passed }
    }

    // The statement that `END` begins.
    fn end(&self) -> Statement
        ensures { result ≡ end_of self.now.draft }
    {
        if self.draft.ends_bare() {
            Statement::EndAlone
        } else {
            Statement::End
        }
    }

    // What begins in this form.
    #[tactic(auto, unfolding(crate::specs::Reading::begun_by))]
    fn begun_by(&self, form: Option<Form>) -> Begun<Class, Statement, LefKind>
        ensures { result ≡ begun_by self.now form }
    {
        match form {
            Some(Form::Taken(statement)) => self.taken(statement),
            Some(Form::Passed(extent)) => Begun::Passed(extent),
            None => Begun::Passed(Extent::Statement),
        }
    }

    // A statement that is taken, but none that needs a layer where none was named.
    fn taken(&self, statement: Statement) -> Begun<Class, Statement, LefKind>
        ensures { result ≡ taken self.now statement }
    {
        if needs_layer(statement) && self.draft.lacks_layer() {
            Begun::Bad(LefKind::Unexpected)
        } else {
            Begun::Taken(statement)
        }
    }

    // The open section has ended.
    #[tactic(auto, unfolding(crate::specs::Reading::closed_of))]
    fn close(&mut self) -> Result<(), AllocError>
        ensures { OnOk result (self.new ≡ closed_of self.old) }
    {
        match mem::replace(&mut self.draft, Draft::Top).close()? {
            Closed::Text => self.done = true,
            Closed::Nothing => {}
            Closed::Item(item) => self.items.push(item)?,
            Closed::Inner(inner) => drop(mem::replace(&mut self.draft, inner)),
            Closed::LeftOut(inner) => {
                drop(mem::replace(&mut self.draft, inner));
                self.count();
            }
        }
        Ok(())
    }

    // Behind `END` and these words.
    #[tactic(auto, unfolding(crate::specs::Reading::closing))]
    fn end_with(&mut self, kept: &Kept) -> Result<(), Stop<LefKind>>
        ensures { Gives (closing self.old kept.now) self.new result }
    {
        match kept.get(0) {
            Some(word) if self.draft.closes(word) => {
                self.close()?;
                Ok(())
            }
            _ => Err(Stop::Fault(LefKind::Unexpected)),
        }
    }
}

impl Language for SoFar {
    type Class = Class;

    type Statement = Statement;

    type Kind = LefKind;

    ghost use Rattle.lef_reader.specs.Reading.{rules};

    ghost rules = { rules };

    fn judge(class: Class, word: &[u8]) -> Judged<LefKind> {
        judge(class, word)
    }

    fn places(statement: Statement) -> &'static [Place<Class>] {
        statement.places()
    }

    #[tactic(auto, unfolding(crate::specs::Reading::begun_in))]
    fn begun(&self, word: &[u8]) -> Begun<Class, Statement, LefKind> {
        if Keyword::End.is(word) {
            return Begun::Taken(self.end());
        }
        if is_semicolon(word) {
            return Begun::Bad(LefKind::Unexpected);
        }
        self.begun_by(self.draft.section().form(word))
    }

    #[tactic(auto, unfolding(crate::specs::Reading::set_in))]
    fn set(
        &mut self,
        alloc: Global,
        statement: Statement,
        kept: &Kept,
    ) -> Result<(), Stop<LefKind>> {
        match statement {
            Statement::EndAlone => self.close()?,
            Statement::End => self.end_with(kept)?,
            _ => self.draft.set(alloc, statement, kept)?,
        }
        Ok(())
    }

    fn count(&mut self) {
        self.passed = self.passed.saturating_add(1);
    }

    fn is_strict(&self) -> bool {
        false
    }

    fn is_done(&self) -> bool {
        self.done
    }

    fn may_end(&self) -> bool {
        matches!(self.draft, Draft::Top)
    }

    fn unexpected() -> LefKind {
        LefKind::Unexpected
    }

    fn cut() -> LefKind {
        LefKind::Cut
    }
}
