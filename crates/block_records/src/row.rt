ghost use Rattle.std.specs.Prelude.{◌≡◌, IfOk};

use odb_base::{Name, Orient, RowForm};
use std::alloc::AllocError;

/// A row of sites.
#[derive(Debug, Drop)]
pub struct RowRec {
    pub name: Name,
    /// The number of the site in the technology, from 1.
    pub site: u32,
    pub x: i32,
    pub y: i32,
    pub orientation: Orient,
    pub form: RowForm,
    /// How many sites stand along x.
    pub nx: u32,
    /// How many sites stand along y.
    pub ny: u32,
    /// The step from site to site along x, in database units.
    pub sx: i32,
    /// The step from site to site along y, in database units.
    pub sy: i32,
}

impl RowRec {
    /// An equal row.
    pub fn try_clone(&self) -> Result<RowRec, AllocError>
        ensures { IfOk result (λ row. row ≡ self.now) }
    {
        Ok(RowRec {
            name: self.name.try_clone()?,
            site: self.site,
            x: self.x,
            y: self.y,
            orientation: self.orientation,
            form: self.form,
            nx: self.nx,
            ny: self.ny,
            sx: self.sx,
            sy: self.sy,
        })
    }
}
