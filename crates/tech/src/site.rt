use crate::symmetry::Symmetry;
use named_list::Named;
use odb_base::{Name, SiteClass};

/// A site: a place for a cell in a row (LEF/DEF 5.8 Language Reference, Site).
#[derive(Debug, Drop)]
pub struct Site {
    pub name: Name,
    pub class: SiteClass,
    pub symmetry: Symmetry,
    /// In database units (`SIZE`).
    pub width: i32,
    pub height: i32,
}

impl Named for Site {
    ghost name_of = { λ s. s.name };

    fn name(&self) -> &Name {
        &self.name
    }
}
