ghost use Rattle.std.specs.Prelude.{◌≡◌};
ghost use Rattle.ld_reader.specs.Rules.{Gives};
ghost use Rattle.def_drafts.specs.Components.{component_begun, component_of, component_option, component_set, new_component, place_option, placement_in};

use crate::options::{DefBegun, Options};
use crate::values::{coordinate_at, name_at, orientation_at};
use def_forms::{Flaw, Keyword, Statement};
use def_tree::DefComponent;
use ld_forms::Kept;
use ld_reader::{Begun, Stop};
use odb_base::{Name, PlaceStatus, Placement};
use std::alloc::Global;

/// A component that is being read.
#[derive(Drop)]
pub struct ComponentDraft {
    pub name: Name,
    pub master: Option<Name>,
    pub place: Placement,
    pub options: Options,
}

impl ComponentDraft {
    /// Behind its name. It takes no memory.
    pub fn new(alloc: Global, name: Name) -> ComponentDraft
        ensures { result ≡ new_component name }
    {
        ComponentDraft {
            name,
            master: None,
            place: Placement::UNPLACED,
            options: Options::new(alloc),
        }
    }

    /// What a word begins.
    pub fn begun(&self, word: &[u8]) -> DefBegun
        ensures { result ≡ component_begun self.now word.now }
    {
        if self.master.is_none() {
            Begun::Within(Statement::Master)
        } else {
            self.options.begun(word, option(word))
        }
    }

    /// Sets what a statement sets.
    #[tactic(auto, unfolding(crate::specs::Components::component_set))]
    pub fn set(
        &mut self,
        alloc: Global,
        statement: Statement,
        words: &Kept,
    ) -> Result<(), Stop<Flaw>>
        ensures { Gives (component_set self.old statement words.now) self.new result }
    {
        match statement {
            Statement::Master => self.master = Some(name_at(alloc, words, 0)?),
            Statement::Place(status) => {
                self.place = placement(status, words);
                self.options.end_own();
            }
            Statement::Unplaced => {
                self.place = Placement::UNPLACED;
                self.options.end_own();
            }
            _ => self.options.set(alloc, statement, words)?,
        }
        Ok(())
    }

    /// Its name and what it is.
    pub fn finish(self) -> Option<(Name, DefComponent)>
        ensures { result ≡ component_of self }
    {
        let ComponentDraft {
            name,
            master,
            place,
            options,
        } = self;
        let Options { kept, props, spot } = options;
        drop(spot);
        match master {
            Some(master) => Some((
                name,
                DefComponent {
                    master,
                    place,
                    kept: kept.into_text(),
                    props,
                },
            )),
            None => {
                drop(name);
                drop(kept);
                drop(props);
                None
            }
        }
    }
}

/// The placement that a statement says.
pub fn placement(status: PlaceStatus, words: &Kept) -> Placement
    ensures { result ≡ placement_in status words.now }
{
    Placement {
        status,
        x: coordinate_at(words, 0),
        y: coordinate_at(words, 1),
        orientation: orientation_at(words, 2),
    }
}

/// What places something by the word of an option, if it does.
#[tactic(auto, unfolding(crate::specs::Components::place_option))]
pub fn place_option(word: &[u8]) -> Option<Statement>
    ensures { result ≡ place_option word.now }
{
    if Keyword::Placed.is(word) {
        Some(Statement::Place(PlaceStatus::Placed))
    } else if Keyword::Fixed.is(word) {
        Some(Statement::Place(PlaceStatus::Fixed))
    } else if Keyword::Cover.is(word) {
        Some(Statement::Place(PlaceStatus::Cover))
    } else {
        None
    }
}

// What a word begins as that of an option.
#[tactic(auto, unfolding(crate::specs::Components::component_option))]
fn option(word: &[u8]) -> DefBegun
    ensures { result ≡ component_option word.now }
{
    if let Some(statement) = place_option(word) {
        Begun::Taken(statement)
    } else if Keyword::Unplaced.is(word) {
        Begun::Taken(Statement::Unplaced)
    } else if Keyword::Property.is(word) {
        Begun::Taken(Statement::Property)
    } else {
        Begun::Within(Statement::KeptWord)
    }
}
