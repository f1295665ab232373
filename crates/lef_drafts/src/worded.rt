ghost use Rattle.std.specs.Prelude.{◌≡◌};
ghost use Rattle.lef_drafts.specs.Worded.{layer_direction_named, layer_type_named, pin_direction_named, pin_use_named, site_class_named};

use ld_forms::{Kept, usage_of};
use lef_forms::{Keyword, direction_of, layer_direction_of, layer_type_of, site_class_of};
use odb_base::{Direction, LayerDirection, LayerType, SiteClass, Usage};

/// The type of a layer that the first word names.
pub fn layer_type_named(values: &Kept) -> LayerType
    ensures { result ≡ layer_type_named values.now }
{
    match values.get(0) {
        Some(word) => layer_type_of(word).unwrap_or(LayerType::Other),
        None => LayerType::Other,
    }
}

/// The direction of a layer that the first word names.
pub fn layer_direction_named(values: &Kept) -> LayerDirection
    ensures { result ≡ layer_direction_named values.now }
{
    match values.get(0) {
        Some(word) => layer_direction_of(word).unwrap_or(LayerDirection::None),
        None => LayerDirection::None,
    }
}

/// The class of a site that the first word names.
pub fn site_class_named(values: &Kept) -> SiteClass
    ensures { result ≡ site_class_named values.now }
{
    match values.get(0) {
        Some(word) => site_class_of(word).unwrap_or(SiteClass::Core),
        None => SiteClass::Core,
    }
}

/// The use of a pin that the first word names.
pub fn pin_use_named(values: &Kept) -> Usage
    ensures { result ≡ pin_use_named values.now }
{
    match values.get(0) {
        Some(word) => usage_of(word).unwrap_or(Usage::None),
        None => Usage::None,
    }
}

/// The direction of a pin that the words name: one word, or `OUTPUT TRISTATE`.
pub fn pin_direction_named(values: &Kept) -> Direction
    ensures { result ≡ pin_direction_named values.now }
{
    if values.has(Keyword::Tristate.text()) {
        return Direction::Tristate;
    }
    if values.has(Keyword::Output.text()) {
        return Direction::Output;
    }
    match values.get(0) {
        Some(word) => direction_of(word).unwrap_or(Direction::None),
        None => Direction::None,
    }
}
