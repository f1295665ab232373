// Laws of statements. Each is the contract of a function that does nothing.

ghost use Rattle.ld_reader.specs.Laws.{BadIsFault, EndIsCut, FaultIsOnItsLine, FilledIsSet, LinesSayNothing, StrayIsPassedOver, StrictStrayIsFault, WordsBehindAreLeft};

use crate::language::Language;

/// Words that fill the places of a statement set what it sets. Words that fill a front of them, and then one that doesn't
/// belong there, have it passed over and counted, or are a fault where the language is strict. Words that fill a front,
/// and then one that is no number or name, are that fault.
pub fn statements_are_read<L: Language>()
    ensures filled { FilledIsSet L.rules }
    ensures stray { StrayIsPassedOver L.rules }
    ensures bad { BadIsFault L.rules }
    ensures strict { StrictStrayIsFault L.rules }
{}

/// The lines of words say nothing but where a fault is, which is on the line of the first word that its place doesn't
/// take, and words behind the last one that was due are left. Where no word is at fault, the text ends too early.
pub fn words_are_read_in_order<L: Language>()
    ensures lines { LinesSayNothing L.rules }
    ensures fault { FaultIsOnItsLine L.rules }
    ensures cut { EndIsCut L.rules }
    ensures left { WordsBehindAreLeft L.rules }
{}
