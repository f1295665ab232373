// Laws of DEF texts. Each is the contract of a function that does nothing but call those of statements.

ghost use Rattle.ld_reader.specs.Laws.{BadIsFault, FilledIsSet, LinesSayNothing, StrayIsPassedOver, StrictStrayIsFault};
ghost use Rattle.def_reader.specs.Reading.{rules};

use crate::so_far::SoFar;
use ld_reader::{statements_are_read, words_are_read_in_order};

/// Words that fill the places of a statement set what it sets. Words that fill a front of them, and then one that doesn't
/// belong there, have it passed over and counted outside sections, and are a fault in them. Words that fill a front, and
/// then one that is no number or name, are that fault. The lines of words say nothing but where a fault is.
pub fn def_statements_are_read()
    ensures filled { FilledIsSet rules }
    ensures stray { StrayIsPassedOver rules }
    ensures strict { StrictStrayIsFault rules }
    ensures bad { BadIsFault rules }
    ensures lines { LinesSayNothing rules }
{
    statements_are_read::<SoFar>();
    words_are_read_in_order::<SoFar>();
}
