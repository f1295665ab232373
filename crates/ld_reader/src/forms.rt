ghost use Rattle.std.specs.Prelude.{◌≡◌, None, Some, drop, if◌then◌else◌, length, min};
ghost use Rattle.ld_forms.specs.Passing.{ends_if, fits, is_name, pass_step, statements_step};
ghost use Rattle.ld_forms.specs.Places.{by_judged, due, fit_in, goes_by, is_semicolon, left_out};

use crate::language::Language;
use ld_forms::{Fit, Judged, Kept, Passed, Passing, Place, StatementsSpot, is_semicolon};

/// The places from the one on that the word is to take.
pub fn due<L: Language>(
    places: &'static [Place<L::Class>],
    word: &[u8],
) -> &'static [Place<L::Class>]
    ensures { result.now ≡ due L.rules.judged places.now word.now }
{
    let mut rest = places;
    'places: while let [place, others @ ..] = rest {
        match left_out::<L>(*place, word) {
            Some(count) => rest = behind(others, count),
            None => return rest,
        }
    }
    rest
}

// Behind so many places.
fn behind<C>(places: &'static [Place<C>], count: usize) -> &'static [Place<C>]
    ensures { result.now ≡ drop (min count (length places.now)) places.now }
{
    &places[count.min(places.len())..]
}

#[tactic(auto, unfolding(ld_forms::specs::Places::left_out))]
fn left_out<L: Language>(place: Place<L::Class>, word: &[u8]) -> Option<usize>
    ensures { result ≡ left_out L.rules.judged place word.now }
{
    match place {
        Place::Maybe(class) | Place::More(class) => leaves::<L>(class, word, 0),
        Place::Group(class, count) => leaves::<L>(class, word, count),
        Place::Key(_) | Place::One(_) | Place::Through | Place::End => None,
    }
}

// A word of another class leaves out this many places more.
fn leaves<L: Language>(class: L::Class, word: &[u8], count: usize) -> Option<usize>
    ensures { result ≡ (if goes_by (L.rules.judged class word.now) (is_semicolon word.now) then Some count else None) }
{
    if goes_by(L::judge(class, word), word) {
        Some(count)
    } else {
        None
    }
}

fn goes_by<K: Copy>(judged: Judged<K>, word: &[u8]) -> bool
    ensures { result ≡ goes_by judged (is_semicolon word.now) }
{
    match judged {
        Judged::Fits => false,
        Judged::Other => true,
        Judged::Bad(_) => is_semicolon(word),
    }
}

/// What a word does in a place.
#[tactic(auto, unfolding(ld_forms::specs::Places::fit_in))]
pub fn fit<L: Language>(place: Place<L::Class>, word: &[u8]) -> Fit<L::Kind>
    ensures { result ≡ fit_in L.rules.judged place word.now }
{
    match place {
        Place::Key(class) => by_judged(L::judge(class, word), Fit::Taken),
        Place::One(class) | Place::Maybe(class) | Place::Group(class, _) => {
            by_judged(L::judge(class, word), Fit::Kept)
        }
        Place::More(class) => by_judged(L::judge(class, word), Fit::KeptHere),
        Place::Through => {
            if is_semicolon(word) {
                Fit::Ends
            } else {
                Fit::Here
            }
        }
        Place::End => {
            if is_semicolon(word) {
                Fit::Ends
            } else {
                Fit::Misfit
            }
        }
    }
}

fn by_judged<K: Copy>(judged: Judged<K>, takes: Fit<K>) -> Fit<K>
    ensures { result ≡ by_judged judged takes }
{
    match judged {
        Judged::Fits => takes,
        Judged::Other => Fit::Misfit,
        Judged::Bad(kind) => Fit::Bad(kind),
    }
}

fn is_of<L: Language>(class: L::Class, word: &[u8]) -> bool
    ensures { result ≡ fits (L.rules.judged class word.now) }
{
    match L::judge(class, word) {
        Judged::Fits => true,
        Judged::Other | Judged::Bad(_) => false,
    }
}

/// What a word does to a part that is passed over, of which these words are kept.
#[tactic(auto, unfolding(ld_forms::specs::Passing::pass_step))]
pub fn pass<L: Language>(passing: Passing<L::Class>, kept: &Kept, word: &[u8]) -> Passed<L::Class>
    ensures { result ≡ pass_step L.rules.judged passing kept.now word.now }
{
    match passing {
        Passing::Statement => ends_if(is_semicolon(word), Passing::Statement),
        Passing::Word(last) => ends_if(is_of::<L>(last, word), Passing::Word(last)),
        Passing::Words(end, last, ended) => {
            let next = Passing::Words(end, last, is_of::<L>(end, word));
            ends_if(ended && is_of::<L>(last, word), next)
        }
        Passing::Name(end) => Passed::Names(Passing::Named(end, false)),
        Passing::Named(end, ended) => {
            let next = Passing::Named(end, is_of::<L>(end, word));
            ends_if(ended && is_name(kept, word), next)
        }
        Passing::Statements(more, last, spot) => pass_statements::<L>(more, last, spot, word),
    }
}

fn ends_if<C: Copy>(ends: bool, next: Passing<C>) -> Passed<C>
    ensures { result ≡ ends_if ends next }
{
    if ends {
        Passed::Ends
    } else {
        Passed::Goes(next)
    }
}

// Whether the word is the first that is kept.
fn is_name(kept: &Kept, word: &[u8]) -> bool
    ensures { result ≡ is_name kept.now word.now }
{
    match kept.get(0) {
        Some(name) => name == word,
        None => false,
    }
}

#[tactic(auto, unfolding(ld_forms::specs::Passing::statements_step))]
fn pass_statements<L: Language>(
    more: L::Class,
    last: L::Class,
    spot: StatementsSpot,
    word: &[u8],
) -> Passed<L::Class>
    ensures { result ≡ statements_step L.rules.judged more last spot word.now }
{
    let at = |spot| Passed::Goes(Passing::Statements(more, last, spot));
    match spot {
        StatementsSpot::Second if is_semicolon(word) => Passed::Ends,
        StatementsSpot::Second => at(StatementsSpot::Third),
        StatementsSpot::Third | StatementsSpot::First if is_of::<L>(more, word) => {
            at(StatementsSpot::Later)
        }
        StatementsSpot::Third => ends_if(is_semicolon(word), Passing::Statement),
        StatementsSpot::Later if is_semicolon(word) => at(StatementsSpot::First),
        StatementsSpot::Later => at(StatementsSpot::Later),
        StatementsSpot::First if is_of::<L>(last, word) => Passed::Goes(Passing::Statement),
        StatementsSpot::First => Passed::Behind,
    }
}
