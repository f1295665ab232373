ghost use Rattle.std.specs.Prelude.{◌≡◌};
ghost use Rattle.ld_forms.specs.Places.{is_semicolon};

/// What a word is to a class of words.
#[derive(Clone, Copy, Debug, PartialEq, Eq)]
pub enum Judged<K> {
    /// One of them.
    Fits,
    /// None of them.
    Other,
    /// None of them, which is this fault.
    Bad(K),
}

/// A place of a statement's form, which a word of a class takes.
#[derive(Clone, Copy, Debug, PartialEq, Eq)]
pub enum Place<C> {
    /// A word that isn't kept.
    Key(C),
    /// A word that is kept.
    One(C),
    /// A word that is kept, or none.
    Maybe(C),
    /// A word that is kept and so many places behind it, or what stands behind those.
    Group(C, usize),
    /// Further words that are kept, or none.
    More(C),
    /// Any words and then `;`, which ends the statement.
    Through,
    /// `;`, which ends the statement.
    End,
}

/// What a word does in a place.
#[derive(Clone, Copy, Debug, PartialEq, Eq)]
pub enum Fit<K> {
    /// It takes the place, and is kept.
    Kept,
    /// It takes the place.
    Taken,
    /// It takes the place and is kept, and the next word may take the place too.
    KeptHere,
    /// It takes the place, and so does the next word.
    Here,
    /// It is the `;` that ends the statement.
    Ends,
    /// It doesn't take the place.
    Misfit,
    /// It doesn't take the place, which is this fault.
    Bad(K),
}

/// Whether the word ends a statement.
#[tactic(auto, unfolding(crate::specs::Places::is_semicolon))]
pub fn is_semicolon(word: &[u8]) -> bool
    ensures { result ≡ is_semicolon word.now }
{
    word == b";".as_slice()
}
