ghost use Rattle.std.specs.Prelude.{◌≡◌, if◌then◌else◌};
ghost use Rattle.def_forms.specs.Classes.{by_flaw, fits_or, has_star, is_joined, judged, unless};

use crate::flaw::Flaw;
use crate::keyword::Keyword;
use crate::number::{coordinate, count, is_number, track_step};
use crate::quoted::{bus_of, divider_of};
use crate::word_set::WordSet;
use ld_forms::{Judged, is_name, is_semicolon, is_via_name, per_micron_of};

/// A class of words, of which a place takes one.
#[derive(Clone, Copy, Debug, PartialEq, Eq)]
pub enum Class {
    /// This word alone.
    Word(Keyword),
    /// A lawful name.
    Name,
    /// A lawful name of a via, which no orientation has.
    ViaName,
    /// A lawful name of a net. `MUSTJOIN` isn't read here.
    NetName,
    /// The name of a member of a group. A word with `*`, which stands for several, isn't read here.
    Member,
    /// The name of a component in a connection, or `PIN`; in a special net also `*`.
    Joined { special: bool },
    /// A number within the limit of coordinates.
    Coordinate,
    /// This word alone, in a blockage, of which polygons aren't read here.
    BlockedWord(Keyword),
    /// A number within the limit of coordinates, in a blockage.
    BlockedCoordinate,
    /// How often something is repeated: 1 to 1,000,000.
    Count,
    /// The distance of tracks: 1 to the limit of coordinates.
    Step,
    /// The database units per micron.
    PerMicron,
    /// A number, of whatever size.
    Number,
    /// The divider of names, in quotes.
    Divider,
    /// The characters around the index of a bus's bit, in quotes.
    Bus,
    /// A word of the set.
    OneOf(WordSet),
    /// Any word but `;` and `+`.
    Loose,
    /// Any word but `;`.
    Any,
    /// Any word.
    Every,
    /// The first word of a third point of the die's outline, which isn't read here.
    ThirdPoint,
    /// No word.
    Nothing,
}

/// What a word is to a class.
#[tactic(auto, unfolding(crate::specs::Classes::judged))]
pub fn judge(class: Class, word: &[u8]) -> Judged<Flaw>
    ensures { result ≡ judged class word.now }
{
    match class {
        Class::Word(keyword) => fits_or(keyword.is(word), Judged::Other),
        Class::Name => named(is_name(word)),
        Class::ViaName => named(is_via_name(word)),
        Class::NetName => unless(Keyword::MustJoin.is(word), named(is_name(word))),
        Class::Member => unless(has_star(word), named(is_name(word))),
        Class::Joined { special } => named(is_joined(special, word)),
        Class::Coordinate => number(coordinate(word).is_some()),
        Class::BlockedWord(keyword) => {
            unless(
                Keyword::Polygon.is(word),
                fits_or(keyword.is(word), Judged::Other),
            )
        }
        Class::BlockedCoordinate => {
            unless(
                Keyword::Polygon.is(word),
                number(coordinate(word).is_some()),
            )
        }
        Class::Count => number(count(word).is_some()),
        Class::Step => number(track_step(word).is_some()),
        Class::PerMicron => number(per_micron_of(word).is_some()),
        Class::Number => number(is_number(word)),
        Class::Divider => fits_or(divider_of(word).is_some(), Judged::Other),
        Class::Bus => fits_or(bus_of(word).is_some(), Judged::Other),
        Class::OneOf(set) => fits_or(set.has(word), Judged::Other),
        Class::Loose => fits_or(
            !is_semicolon(word) && !Keyword::Plus.is(word),
            Judged::Other,
        ),
        Class::Any => fits_or(!is_semicolon(word), Judged::Other),
        Class::Every => Judged::Fits,
        Class::ThirdPoint => unless(Keyword::Open.is(word), Judged::Other),
        Class::Nothing => Judged::Other,
    }
}

fn fits_or(fits: bool, other: Judged<Flaw>) -> Judged<Flaw>
    ensures { result ≡ fits_or fits other }
{
    if fits { Judged::Fits } else { other }
}

// A name, or a bad one.
fn named(fits: bool) -> Judged<Flaw>
    ensures { result ≡ by_flaw Flaw.BadName fits }
{
    fits_or(fits, Judged::Bad(Flaw::BadName))
}

// A number, or a bad one.
fn number(fits: bool) -> Judged<Flaw>
    ensures { result ≡ by_flaw Flaw.BadNumber fits }
{
    fits_or(fits, Judged::Bad(Flaw::BadNumber))
}

// What the word is, unless it isn't read here.
fn unless(unsupported: bool, other: Judged<Flaw>) -> Judged<Flaw>
    ensures { result ≡ unless unsupported other }
{
    if unsupported {
        Judged::Bad(Flaw::Unsupported)
    } else {
        other
    }
}

fn has_star(word: &[u8]) -> bool
    ensures { result ≡ has_star word.now }
{
    word.iter().any(|byte| *byte == b'*')
}

#[tactic(auto, unfolding(crate::specs::Classes::is_joined))]
fn is_joined(special: bool, word: &[u8]) -> bool
    ensures { result ≡ is_joined special word.now }
{
    Keyword::Pin.is(word) || special && Keyword::Star.is(word) || is_name(word)
}
