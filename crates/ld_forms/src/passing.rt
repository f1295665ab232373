ghost use Rattle.std.specs.Prelude.{◌≡◌};
ghost use Rattle.ld_forms.specs.Passing.{passing_of};

/// How far a part is passed over.
#[derive(Clone, Copy, Debug, PartialEq, Eq)]
pub enum Extent<C> {
    /// Through its `;`.
    Statement,
    /// Through a word of the class.
    Word(C),
    /// Through a word of the first class and one of the second behind it.
    Words(C, C),
    /// Through a word of the class and the word behind it that is the same as the second one of the part.
    Named(C),
    /// Through its `;`, and where its third word is of the first class through the statements directly behind it that
    /// begin with a word of either class, up to the first that begins with one of the second.
    Statements(C, C),
}

/// Where the reading of a part that is passed over stands.
#[derive(Clone, Copy, Debug, PartialEq, Eq)]
pub enum Passing<C> {
    Statement,
    Word(C),
    /// The last word was of the first class, or not.
    Words(C, C, bool),
    /// The second word of the part is due, which is kept.
    Name(C),
    /// The last word was of the class, or not.
    Named(C, bool),
    Statements(C, C, StatementsSpot),
}

/// Which word of a part of several statements is due.
#[derive(Clone, Copy, Debug, PartialEq, Eq)]
pub enum StatementsSpot {
    /// The second word of the first statement.
    Second,
    /// The third word of the first statement.
    Third,
    /// A later word of a statement of the part.
    Later,
    /// The first word of a further statement.
    First,
}

/// What a word does to a part that is passed over.
#[derive(Clone, Copy, Debug, PartialEq, Eq)]
pub enum Passed<C> {
    /// It belongs to the part, which goes on.
    Goes(Passing<C>),
    /// It is the second word of the part, which goes on.
    Names(Passing<C>),
    /// It is the last of the part.
    Ends,
    /// It stands behind the part.
    Behind,
}

impl<C: Copy> Passing<C> {
    /// Behind the first word of a part.
    pub fn new(extent: Extent<C>) -> Passing<C>
        ensures { result ≡ passing_of extent }
    {
        match extent {
            Extent::Statement => Passing::Statement,
            Extent::Word(last) => Passing::Word(last),
            Extent::Words(end, last) => Passing::Words(end, last, false),
            Extent::Named(end) => Passing::Name(end),
            Extent::Statements(more, last) => Passing::Statements(
                more,
                last,
                StatementsSpot::Second,
            ),
        }
    }
}
