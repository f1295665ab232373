use crate::by_name::{ByName, Names};
use odb_base::{Name, Placement, Text};

/// An instance of a master (COMPONENTS).
#[derive(Drop)]
pub struct DefComponent {
    pub master: Name,
    pub place: Placement,
    /// Its other options, word for word.
    pub kept: Text,
    /// The values of its properties.
    pub props: ByName<Text>,
}

/// A group of components (GROUPS).
#[derive(Drop)]
pub struct DefGroup {
    /// The names of its components.
    pub members: Names,
    /// The region that it is for.
    pub region: Option<Name>,
    /// Its other options, word for word.
    pub kept: Text,
    /// The values of its properties.
    pub props: ByName<Text>,
}
