ghost use Rattle.std.specs.Prelude.{◌≡◌};
ghost use Rattle.ld_reader.specs.Rules.{Gives};

use crate::due::{Due, Sort};
use crate::fault::Stop;
use crate::forms::{due, fit, pass};
use crate::language::{Begun, Language};
use ld_forms::{Fit, Kept, Passed, Passing, Place, is_semicolon};
use std::alloc::Global;

/// Reads a text word by word. Each word is taken by its place, with no view of later ones.
#[derive(Drop)]
pub struct Reader<T, C: 'static, S> {
    /// What was read so far.
    pub so_far: T,
    /// The words of the statement at hand that are kept.
    pub kept: Kept,
    /// Which word is due.
    pub due: Due<C, S>,
}

impl<L: Language> Reader<L, L::Class, L::Statement> {
    ghost use Rattle.ld_reader.specs.Reading.{at, bad, between, by_fit, by_places, in_form, in_passing, is_done, is_first, may_end, misfit, moved, passed_on, step_of, unless_done, whole, within};

    /// Before the first word of a text. It takes no memory.
    pub fn new(alloc: Global, so_far: L) -> Reader<L, L::Class, L::Statement>
        ensures { result ≡ at so_far }
    {
        Reader {
            so_far,
            kept: Kept::new(alloc),
            due: Due::first(),
        }
    }

    /// Whether no more word is due.
    pub fn is_done(&self) -> bool
        ensures { result ≡ is_done L.rules self.now }
    {
        self.so_far.is_done()
    }

    /// Whether the text may end here without a further word.
    pub fn may_end(&self) -> bool
        ensures { result ≡ may_end L.rules self.now }
    {
        self.is_done() || self.is_first() && self.so_far.may_end()
    }

    fn is_first(&self) -> bool
        ensures { result ≡ is_first L.rules self.now.due.sort }
    {
        matches!(self.due.sort(), Sort::First)
    }

    /// With one more word.
    #[tactic(auto, unfolding(crate::specs::Reading::step_of))]
    pub fn step(&mut self, alloc: Global, word: &[u8]) -> Result<(), Stop<L::Kind>>
        ensures { Gives (step_of L.rules self.old word.now) self.new result }
    {
        let places = self.due.places();
        match self.due.sort() {
            Sort::First => self.between(alloc, word),
            Sort::In(statement) => self.in_form(alloc, statement, places, word),
            Sort::Passing(passing) => self.in_passing(alloc, passing, word),
        }
    }

    // A first word of a statement.
    #[tactic(auto, unfolding(crate::specs::Reading::between))]
    fn between(&mut self, alloc: Global, word: &[u8]) -> Result<(), Stop<L::Kind>>
        ensures { Gives (between L.rules self.old.so_far self.old.kept word.now) self.new result }
    {
        match self.so_far.begun(word) {
            Begun::Taken(statement) => self.moved(alloc, statement, L::places(statement)),
            Begun::Within(statement) => {
                self.within(alloc, statement, due::<L>(L::places(statement), word), word)
            }
            Begun::Passed(extent) => {
                self.so_far.count();
                self.due = Due::passing(Passing::new(extent));
                Ok(())
            }
            Begun::Bad(kind) => Err(Stop::Fault(kind)),
        }
    }

    // A first word of a statement that takes the first of these places.
    fn within(
        &mut self,
        alloc: Global,
        statement: L::Statement,
        places: &'static [Place<L::Class>],
        word: &[u8],
    ) -> Result<(), Stop<L::Kind>>
        ensures { Gives (within L.rules self.old.so_far self.old.kept statement places.now word.now) self.new result }
    {
        let [place, later @ ..] = places else {
            return self.misfit(word);
        };
        let fit = fit::<L>(*place, word);
        self.by_fit(alloc, statement, places, later, fit, word)
    }

    // Behind a place of a statement, with these places behind it.
    #[tactic(auto, unfolding(crate::specs::Reading::moved))]
    fn moved(
        &mut self,
        alloc: Global,
        statement: L::Statement,
        places: &'static [Place<L::Class>],
    ) -> Result<(), Stop<L::Kind>>
        ensures { Gives (moved L.rules self.old.so_far self.old.kept statement places.now) self.new result }
    {
        if places.is_empty() {
            return self.whole(alloc, statement);
        }
        self.due = Due::in_form(statement, places);
        Ok(())
    }

    // Behind a statement that is whole.
    #[tactic(auto, unfolding(crate::specs::Reading::whole))]
    fn whole(&mut self, alloc: Global, statement: L::Statement) -> Result<(), Stop<L::Kind>>
        ensures { Gives (whole L.rules self.old.so_far self.old.kept statement) self.new result }
    {
        self.so_far.set(alloc, statement, &self.kept)?;
        self.kept.clear();
        self.due = Due::first();
        Ok(())
    }

    // A word of a statement that has these places left.
    #[tactic(auto, unfolding(crate::specs::Reading::in_form))]
    fn in_form(
        &mut self,
        alloc: Global,
        statement: L::Statement,
        places: &'static [Place<L::Class>],
        word: &[u8],
    ) -> Result<(), Stop<L::Kind>>
        ensures { Gives (in_form L.rules self.old.so_far self.old.kept statement places.now word.now) self.new result }
    {
        let places = due::<L>(places, word);
        self.by_places(alloc, statement, places, word)
    }

    // A word that is to take the first of these places, or stands behind the last.
    fn by_places(
        &mut self,
        alloc: Global,
        statement: L::Statement,
        places: &'static [Place<L::Class>],
        word: &[u8],
    ) -> Result<(), Stop<L::Kind>>
        ensures { Gives (by_places L.rules self.old.so_far self.old.kept statement places.now word.now) self.new result }
    {
        let [place, later @ ..] = places else {
            self.whole(alloc, statement)?;
            return self.unless_done(alloc, word);
        };
        let fit = fit::<L>(*place, word);
        self.by_fit(alloc, statement, places, later, fit, word)
    }

    // A first word, if one is due.
    fn unless_done(&mut self, alloc: Global, word: &[u8]) -> Result<(), Stop<L::Kind>>
        ensures { Gives (unless_done L.rules self.old word.now) self.new result }
    {
        if self.is_done() {
            return Ok(());
        }
        self.between(alloc, word)
    }

    // What a word does in the first of these places, with the later ones behind it.
    #[tactic(auto, unfolding(crate::specs::Reading::by_fit))]
    fn by_fit(
        &mut self,
        alloc: Global,
        statement: L::Statement,
        places: &'static [Place<L::Class>],
        later: &'static [Place<L::Class>],
        fit: Fit<L::Kind>,
        word: &[u8],
    ) -> Result<(), Stop<L::Kind>>
        ensures { Gives (by_fit L.rules self.old.so_far self.old.kept statement places.now later.now fit word.now) self.new result }
    {
        match fit {
            Fit::Kept => {
                self.kept.push(alloc, word)?;
                self.moved(alloc, statement, later)
            }
            Fit::Taken => self.moved(alloc, statement, later),
            Fit::KeptHere => {
                self.kept.push(alloc, word)?;
                self.due = Due::in_form(statement, places);
                Ok(())
            }
            Fit::Here => {
                self.due = Due::in_form(statement, places);
                Ok(())
            }
            Fit::Ends => self.whole(alloc, statement),
            Fit::Misfit => self.misfit(word),
            Fit::Bad(kind) => self.bad(kind, word),
        }
    }

    // A word that doesn't belong to its statement.
    fn misfit(&mut self, word: &[u8]) -> Result<(), Stop<L::Kind>>
        ensures { Gives (misfit L.rules self.old.so_far word.now) self.new result }
    {
        if self.so_far.is_strict() {
            return Err(Stop::Fault(L::unexpected()));
        }
        self.pass_over(word);
        Ok(())
    }

    // A word that is a fault in its place. A `;` has its statement passed over.
    fn bad(&mut self, kind: L::Kind, word: &[u8]) -> Result<(), Stop<L::Kind>>
        ensures { Gives (bad L.rules self.old.so_far kind word.now) self.new result }
    {
        if self.so_far.is_strict() || !is_semicolon(word) {
            return Err(Stop::Fault(kind));
        }
        self.pass_over(word);
        Ok(())
    }

    // A statement is passed over from this word on.
    fn pass_over(&mut self, word: &[u8])
        ensures { self.new ≡ passed_on (L.rules.counted self.old.so_far) word.now }
    {
        self.so_far.count();
        self.kept.clear();
        self.due = if is_semicolon(word) {
            Due::first()
        } else {
            Due::passing(Passing::Statement)
        };
    }

    // A word of a part that is passed over.
    #[tactic(auto, unfolding(crate::specs::Reading::in_passing))]
    fn in_passing(
        &mut self,
        alloc: Global,
        passing: Passing<L::Class>,
        word: &[u8],
    ) -> Result<(), Stop<L::Kind>>
        ensures { Gives (in_passing L.rules self.old.so_far self.old.kept passing word.now) self.new result }
    {
        match pass::<L>(passing, &self.kept, word) {
            Passed::Goes(passing) => self.due = Due::passing(passing),
            Passed::Names(passing) => {
                self.kept.push(alloc, word)?;
                self.due = Due::passing(passing);
            }
            Passed::Ends => {
                self.kept.clear();
                self.due = Due::first();
            }
            Passed::Behind => return self.between(alloc, word),
        }
        Ok(())
    }
}
