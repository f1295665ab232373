ghost use Rattle.odb_base.specs.RowForm.{row_forms, row_form_code};

use crate::codes::Coded;

/// How far the repetition of a row is spelled out in DEF.
#[derive(Clone, Copy, Debug, PartialEq, Eq)]
pub enum RowForm {
    /// Without `DO`: one site.
    Bare = 0,
    /// With `DO` and without `STEP`.
    Do = 1,
    /// With `DO` and `STEP`.
    DoStep = 2,
}

impl Coded for RowForm {
    ghost every = { row_forms };

    ghost code_of = { row_form_code };

    fn every() -> &'static [RowForm] {
        &[RowForm::Bare, RowForm::Do, RowForm::DoStep]
    }

    fn code(self) -> u8 {
        self as u8
    }
}
