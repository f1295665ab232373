ghost use Rattle.std.specs.Prelude.{◌≡◌};
ghost use Rattle.ld_reader.specs.Rules.{Gives};
ghost use Rattle.def_drafts.specs.DefinitionDrafts.{definition_begun, definition_of, definition_set, new_definition, type_at};

use crate::kept_words::KeptWords;
use crate::options::DefBegun;
use def_forms::{Flaw, Statement, prop_type_of};
use def_tree::DefDefinition;
use ld_forms::{Kept, is_semicolon};
use ld_reader::{Begun, Stop};
use odb_base::{Name, Owner, PropType};
use std::alloc::Global;

/// A definition of a property that is being read.
#[derive(Drop)]
pub struct DefinitionDraft {
    pub owner: Owner,
    pub name: Name,
    pub sort: Option<PropType>,
    pub rest: KeptWords,
}

impl DefinitionDraft {
    /// Behind its owner and its name. It takes no memory.
    pub fn new(alloc: Global, owner: Owner, name: Name) -> DefinitionDraft
        ensures { result ≡ new_definition owner name }
    {
        DefinitionDraft {
            owner,
            name,
            sort: None,
            rest: KeptWords::new(alloc),
        }
    }

    /// What a word begins.
    pub fn begun(&self, word: &[u8]) -> DefBegun
        ensures { result ≡ definition_begun self.now word.now }
    {
        if self.sort.is_none() {
            Begun::Within(Statement::DefinitionType)
        } else if is_semicolon(word) {
            Begun::Within(Statement::EndElement)
        } else {
            Begun::Within(Statement::DefinitionWord)
        }
    }

    /// Sets what a statement sets.
    pub fn set(&mut self, statement: Statement, words: &Kept) -> Result<(), Stop<Flaw>>
        ensures { Gives (definition_set self.old statement words.now) self.new result }
    {
        match statement {
            Statement::DefinitionType => self.sort = Some(type_at(words)),
            Statement::DefinitionWord => self.rest.push(words.get(0).unwrap_or(b""))?,
            _ => {}
        }
        Ok(())
    }

    /// Its owner, its name and what it is.
    pub fn finish(self) -> (Owner, Name, DefDefinition)
        ensures { result ≡ definition_of self }
    {
        let DefinitionDraft {
            owner,
            name,
            sort,
            rest,
        } = self;
        let definition = DefDefinition {
            sort: sort.unwrap_or(PropType::Integer),
            rest: rest.into_text(),
        };
        (owner, name, definition)
    }
}

// The type that the first word names.
fn type_at(words: &Kept) -> PropType
    ensures { result ≡ type_at words.now }
{
    match words.get(0) {
        Some(word) => prop_type_of(word).unwrap_or(PropType::Integer),
        None => PropType::Integer,
    }
}
