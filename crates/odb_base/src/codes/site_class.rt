ghost use Rattle.odb_base.specs.SiteClass.{site_classes, site_class_code, site_class_word};

use crate::codes::{Coded, Worded};

/// What stands on a site.
#[derive(Clone, Copy, Debug, PartialEq, Eq)]
pub enum SiteClass {
    /// Cells of the core.
    Core = 1,
    /// Pads.
    Pad = 2,
}

impl Coded for SiteClass {
    ghost every = { site_classes };

    ghost code_of = { site_class_code };

    fn every() -> &'static [SiteClass] {
        &[SiteClass::Core, SiteClass::Pad]
    }

    fn code(self) -> u8 {
        self as u8
    }
}

impl Worded for SiteClass {
    ghost word_of = { site_class_word };

    #[tactic(auto, unfolding(crate::specs::SiteClass::site_class_word))]
    fn word(self) -> &'static [u8] {
        match self {
            SiteClass::Core => b"CORE",
            SiteClass::Pad => b"PAD",
        }
    }
}
