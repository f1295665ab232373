ghost use Rattle.std.specs.Prelude.{◌≡◌};

use ld_forms::{Passing, Place};
use std::marker::Model;

/// What the word that is due belongs to.
#[derive(Clone, Copy, Debug, PartialEq, Eq)]
pub enum Sort<C, S> {
    /// It is the first of a statement.
    First,
    /// It is one of a statement that began.
    In(S),
    /// It is one of a part that is passed over.
    Passing(Passing<C>),
}

/// Which word is due. Contracts see the places themselves.
#[derive(Drop)]
pub struct Due<C: 'static, S> {
    sort: Sort<C, S>,
    // What is left of the places of the statement.
    places: &'static [Place<C>],
}

impl<C: 'static, S> Model for Due<C, S> {
    ghost use Rattle.ld_reader.specs.Due.{DueOf};

    ghost Value = { DueOf C S };

    ghost view = { λ d. record { sort = d.sort; places = d.places.now } };
}

impl<C: Copy + 'static, S: Copy> Due<C, S> {
    ghost use Rattle.ld_reader.specs.Due.{first, in_form, passing};

    /// The first word of a statement.
    pub fn first() -> Due<C, S>
        ensures { result ≡ first }
    {
        Due {
            sort: Sort::First,
            places: &[],
        }
    }

    /// A word of a statement that has these places left.
    pub fn in_form(statement: S, places: &'static [Place<C>]) -> Due<C, S>
        ensures { result ≡ in_form statement places.now }
    {
        Due {
            sort: Sort::In(statement),
            places,
        }
    }

    /// A word of a part that is passed over.
    pub fn passing(part: Passing<C>) -> Due<C, S>
        ensures { result ≡ passing part }
    {
        Due {
            sort: Sort::Passing(part),
            places: &[],
        }
    }

    /// What it belongs to.
    pub fn sort(&self) -> Sort<C, S>
        ensures { result ≡ self.now.sort }
    {
        self.sort
    }

    /// The places that are left.
    pub fn places(&self) -> &'static [Place<C>]
        ensures { result.now ≡ self.now.places }
    {
        self.places
    }
}
