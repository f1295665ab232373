use named_list::Named;
use odb_base::{List, Name, Shape};

/// A via of the technology (LEF/DEF 5.8 Language Reference, Via).
#[derive(Debug, Drop)]
pub struct TechVia {
    pub name: Name,
    /// Routers take it where no other is named (`DEFAULT`).
    pub default: bool,
    /// Around the point where the via is placed, in the order of entry.
    pub shapes: List<Shape>,
}

impl Named for TechVia {
    ghost name_of = { λ v. v.name };

    fn name(&self) -> &Name {
        &self.name
    }
}
