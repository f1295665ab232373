ghost use Rattle.std.specs.Prelude.{◌≡◌};
ghost use Rattle.ld_reader.specs.Rules.{Gives};
ghost use Rattle.def_drafts.specs.Rows.{form_in, new_row, row_begun, row_of, row_option, row_set, sites_in};

use crate::options::{DefBegun, Options};
use crate::values::{coordinate_at, count_at, name_at, orientation_at};
use def_forms::{Flaw, Keyword, Statement};
use def_tree::DefRow;
use ld_forms::Kept;
use ld_reader::{Begun, Stop};
use odb_base::{Name, Orient, RowForm};
use std::alloc::Global;

/// The sites of a row.
#[derive(Drop)]
pub struct Sites {
    pub site: Name,
    pub x: i32,
    pub y: i32,
    pub orientation: Orient,
    pub form: RowForm,
    pub nx: u32,
    pub ny: u32,
    pub sx: i32,
    pub sy: i32,
}

/// A row that is being read. Words that can't stand in it have it passed over.
#[derive(Drop)]
pub struct RowDraft {
    pub name: Name,
    pub sites: Option<Sites>,
    pub options: Options,
}

impl RowDraft {
    /// Behind its name. It takes no memory.
    pub fn new(alloc: Global, name: Name) -> RowDraft
        ensures { result ≡ new_row name }
    {
        RowDraft {
            name,
            sites: None,
            options: Options::new(alloc),
        }
    }

    /// What a word begins.
    pub fn begun(&self, word: &[u8]) -> DefBegun
        ensures { result ≡ row_begun self.now word.now }
    {
        if self.sites.is_none() {
            Begun::Within(Statement::RowSites)
        } else {
            self.options.begun(word, option(word))
        }
    }

    /// Sets what a statement sets.
    #[tactic(auto, unfolding(crate::specs::Rows::row_set))]
    pub fn set(
        &mut self,
        alloc: Global,
        statement: Statement,
        words: &Kept,
    ) -> Result<(), Stop<Flaw>>
        ensures { Gives (row_set self.old statement words.now) self.new result }
    {
        match statement {
            Statement::RowSites => {
                let site = name_at(alloc, words, 0)?;
                self.sites = Some(sites_of(site, words));
            }
            _ => self.options.set(alloc, statement, words)?,
        }
        Ok(())
    }

    /// Its name and what it is.
    pub fn finish(self) -> Option<(Name, DefRow)>
        ensures { result ≡ row_of self }
    {
        let RowDraft {
            name,
            sites,
            options,
        } = self;
        let Options { kept, props, spot } = options;
        drop(kept);
        drop(spot);
        match sites {
            Some(sites) => {
                let Sites {
                    site,
                    x,
                    y,
                    orientation,
                    form,
                    nx,
                    ny,
                    sx,
                    sy,
                } = sites;
                let row = DefRow {
                    site,
                    x,
                    y,
                    orientation,
                    form,
                    nx,
                    ny,
                    sx,
                    sy,
                    props,
                };
                Some((name, row))
            }
            None => {
                drop(name);
                drop(props);
                None
            }
        }
    }
}

// The sites that a statement says.
fn sites_of(site: Name, words: &Kept) -> Sites
    ensures { result ≡ sites_in site words.now }
{
    Sites {
        site,
        x: coordinate_at(words, 1),
        y: coordinate_at(words, 2),
        orientation: orientation_at(words, 3),
        form: form(words),
        nx: count_at(words, 5),
        ny: count_at(words, 6),
        sx: coordinate_at(words, 8),
        sy: coordinate_at(words, 9),
    }
}

// Whether sites are repeated, and how far apart.
fn form(words: &Kept) -> RowForm
    ensures { result ≡ form_in words.now }
{
    if words.get(7).is_some() {
        RowForm::DoStep
    } else if words.get(4).is_some() {
        RowForm::Do
    } else {
        RowForm::Bare
    }
}

// What a word begins as that of an option.
#[tactic(auto, unfolding(crate::specs::Rows::row_option))]
fn option(word: &[u8]) -> DefBegun
    ensures { result ≡ row_option word.now }
{
    if Keyword::Property.is(word) {
        Begun::Taken(Statement::Property)
    } else {
        Begun::Within(Statement::Stray)
    }
}
