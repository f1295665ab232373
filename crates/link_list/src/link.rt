/// The members next to an object in a list, by their identifiers; 0 is none.
#[derive(Clone, Copy, Debug, PartialEq, Eq)]
pub struct Link {
    pub before: u32,
    pub after: u32,
}

/// The first member of a list, by its identifier; 0 is none.
#[derive(Clone, Copy, Debug, PartialEq, Eq)]
pub struct Head {
    pub first: u32,
}
