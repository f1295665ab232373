ghost use Rattle.std.specs.Prelude.{◌≡◌};
ghost use Rattle.ld_reader.specs.Rules.{Gives};
ghost use Rattle.def_drafts.specs.Options.{at_spot, between, kept_by, named, no_options, options_begun, options_set, plus_or, stated_by, unless_ends};

use crate::kept_words::KeptWords;
use crate::values::{name_at, text_at};
use def_forms::{Class, Flaw, Keyword, Statement};
use def_tree::ByName;
use ld_forms::{Kept, is_semicolon};
use ld_reader::{Begun, Stop};
use odb_base::{Name, Text};
use std::alloc::Global;
use std::mem;

/// What a first word begins.
pub type DefBegun = Begun<Class, Statement, Flaw>;

/// Where the reading of an element's options stands.
#[derive(Drop)]
pub enum OptionSpot {
    /// `+` or the end of the element is due.
    Between,
    /// The word behind `+` is due.
    Word,
    /// Further words of an option that is kept may stand here.
    Kept,
    /// The value of this property is due.
    Value(Name),
    /// The name of a further property may stand here.
    Values,
}

/// The options of an element that any may have.
#[derive(Drop)]
pub struct Options {
    /// Options that are kept word for word.
    pub kept: KeptWords,
    /// The values of properties.
    pub props: ByName<Text>,
    pub spot: OptionSpot,
}

impl Options {
    /// None yet. It takes no memory.
    pub fn new(alloc: Global) -> Options
        ensures { result ≡ no_options }
    {
        Options {
            kept: KeptWords::new(alloc),
            props: ByName::new(alloc),
            spot: OptionSpot::Between,
        }
    }

    /// What a word begins, where `own` is what it begins as the word of an option.
    pub fn begun(&self, word: &[u8], own: DefBegun) -> DefBegun
        ensures { result ≡ options_begun self.now word.now own }
    {
        match self.spot {
            OptionSpot::Between => plus_or(word, Statement::EndElement),
            OptionSpot::Word => own,
            OptionSpot::Kept => plus_or(word, unless_ends(word, Statement::KeptWord)),
            OptionSpot::Value(_) => Begun::Within(Statement::PropertyValue),
            OptionSpot::Values => plus_or(word, unless_ends(word, Statement::Property)),
        }
    }

    /// Sets what a statement of an option sets.
    #[tactic(auto, unfolding(crate::specs::Options::options_set))]
    pub fn set(
        &mut self,
        alloc: Global,
        statement: Statement,
        words: &Kept,
    ) -> Result<(), Stop<Flaw>>
        ensures { Gives (options_set self.old statement words.now) self.new result }
    {
        match statement {
            Statement::Plus => self.go_to(OptionSpot::Word),
            Statement::KeptWord => self.keep(words)?,
            Statement::Property => self.name(alloc, words)?,
            Statement::PropertyValue => self.state(alloc, words)?,
            _ => {}
        }
        Ok(())
    }

    /// An option of the element's own has ended.
    pub fn end_own(&mut self)
        ensures { self.new ≡ between self.old }
    {
        self.go_to(OptionSpot::Between);
    }

    fn go_to(&mut self, spot: OptionSpot)
        ensures { self.new ≡ at_spot spot self.old }
    {
        drop(mem::replace(&mut self.spot, spot));
    }

    // A word of an option that is kept.
    fn keep(&mut self, words: &Kept) -> Result<(), Stop<Flaw>>
        ensures { Gives (kept_by self.old.spot words.now self.old) self.new result }
    {
        let word = words.get(0).unwrap_or(b"");
        match self.spot {
            OptionSpot::Word => self.kept.push_option(word)?,
            OptionSpot::Between | OptionSpot::Kept | OptionSpot::Value(_) | OptionSpot::Values =>
                self.kept.push(word)?,
        }
        self.go_to(OptionSpot::Kept);
        Ok(())
    }

    // The name of a property.
    fn name(&mut self, alloc: Global, words: &Kept) -> Result<(), Stop<Flaw>>
        ensures { Gives (named words.now self.old) self.new result }
    {
        let name = name_at(alloc, words, 0)?;
        if self.props.has(name.bytes()) {
            drop(name);
            return Err(Stop::Fault(Flaw::Duplicate));
        }
        self.go_to(OptionSpot::Value(name));
        Ok(())
    }

    // The value of the property that was named.
    fn state(&mut self, alloc: Global, words: &Kept) -> Result<(), Stop<Flaw>>
        ensures { Gives (stated_by self.old.spot words.now self.old) self.new result }
    {
        let value = text_at(alloc, words, 0)?;
        match mem::replace(&mut self.spot, OptionSpot::Values) {
            OptionSpot::Value(name) => {
                let put = self.props.put(alloc, name.bytes(), value);
                drop(name);
                put?;
            }
            OptionSpot::Between | OptionSpot::Word | OptionSpot::Kept | OptionSpot::Values => {
                drop(value);
            }
        }
        Ok(())
    }
}

/// `+`, or what else the word begins.
pub fn plus_or(word: &[u8], other: Statement) -> DefBegun
    ensures { result ≡ plus_or word.now other }
{
    if Keyword::Plus.is(word) {
        Begun::Taken(Statement::Plus)
    } else {
        Begun::Within(other)
    }
}

/// The end of the element, or what else the word begins.
pub fn unless_ends(word: &[u8], other: Statement) -> Statement
    ensures { result ≡ unless_ends word.now other }
{
    if is_semicolon(word) {
        Statement::EndElement
    } else {
        other
    }
}
