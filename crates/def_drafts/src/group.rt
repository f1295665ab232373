ghost use Rattle.std.specs.Prelude.{◌≡◌, is_some};
ghost use Rattle.ld_reader.specs.Rules.{Gives};
ghost use Rattle.def_drafts.specs.Groups.{group_begun, group_of, group_option, group_set, new_group, with_member};

use crate::options::{DefBegun, Options};
use crate::values::name_at;
use def_forms::{Flaw, Keyword, Statement};
use def_tree::{DefGroup, Names};
use ld_forms::{Kept, is_semicolon};
use ld_reader::{Begun, Stop};
use odb_base::Name;
use std::alloc::Global;

/// A group that is being read.
#[derive(Drop)]
pub struct GroupDraft {
    pub name: Name,
    pub members: Names,
    /// Whether a further member may stand here.
    pub listing: bool,
    pub region: Option<Name>,
    pub options: Options,
}

impl GroupDraft {
    /// Behind its name. It takes no memory.
    pub fn new(alloc: Global, name: Name) -> GroupDraft
        ensures { result ≡ new_group name }
    {
        GroupDraft {
            name,
            members: Names::new(alloc),
            listing: true,
            region: None,
            options: Options::new(alloc),
        }
    }

    /// What a word begins.
    pub fn begun(&self, word: &[u8]) -> DefBegun
        ensures { result ≡ group_begun self.now word.now }
    {
        if self.listing && !is_semicolon(word) && !Keyword::Plus.is(word) {
            Begun::Within(Statement::Member)
        } else {
            self.options.begun(word, option(word))
        }
    }

    /// Sets what a statement sets.
    #[tactic(auto, unfolding(crate::specs::Groups::group_set))]
    pub fn set(
        &mut self,
        alloc: Global,
        statement: Statement,
        words: &Kept,
    ) -> Result<(), Stop<Flaw>>
        ensures { Gives (group_set self.old statement words.now) self.new result }
    {
        match statement {
            Statement::Member => self.enter(alloc, words)?,
            Statement::GroupRegion => {
                let region = name_at(alloc, words, 0)?;
                self.region = Some(region);
                self.options.end_own();
            }
            _ => {
                self.listing = false;
                self.options.set(alloc, statement, words)?;
            }
        }
        Ok(())
    }

    // A further member, which may not be one already.
    fn enter(&mut self, alloc: Global, words: &Kept) -> Result<(), Stop<Flaw>>
        ensures { Gives (with_member self.old words.now) self.new result }
    {
        let name = name_at(alloc, words, 0)?;
        let stood = self.members.has(name.bytes());
        let put = if stood {
            Ok(())
        } else {
            self.members.put(alloc, name.bytes(), ())
        };
        drop(name);
        put?;
        if stood {
            return Err(Stop::Fault(Flaw::Duplicate));
        }
        Ok(())
    }

    /// Its name and what it is.
    pub fn finish(self) -> (Name, DefGroup)
        ensures { result ≡ group_of self }
    {
        let GroupDraft {
            name,
            members,
            listing: _,
            region,
            options,
        } = self;
        let Options { kept, props, spot } = options;
        drop(spot);
        let group = DefGroup {
            members,
            region,
            kept: kept.into_text(),
            props,
        };
        (name, group)
    }
}

// What a word begins as that of an option.
#[tactic(auto, unfolding(crate::specs::Groups::group_option))]
fn option(word: &[u8]) -> DefBegun
    ensures { result ≡ group_option word.now }
{
    if Keyword::Region.is(word) {
        Begun::Taken(Statement::GroupRegion)
    } else if Keyword::Property.is(word) {
        Begun::Taken(Statement::Property)
    } else {
        Begun::Within(Statement::KeptWord)
    }
}
