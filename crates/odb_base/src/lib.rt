//! Words that every other crate of the database speaks: names, texts, lists, identifiers, the sets of codes
//! (kinds of objects, orientations, statuses, uses and so on), points and rectangles, ECO states, the digits of
//! numbers, and a counter of steps that costs nothing at run time.
//!
//! A [`Name`], a [`Text`] and a [`WireCode`] are seen by contracts as the list of their bytes, a [`List`] as
//! the list of its items. A name is lawful by its type; [`name_fault`] says why other bytes are none. Each set
//! of codes is an enum that is [`Coded`], and an enum whose values have words is [`Worded`]. Nothing here depends on a
//! database.
#![tactic(auto)]

pub mod codes;
pub mod digits;
pub mod eco_state;
pub mod geometry;
pub mod id;
pub mod list;
pub mod name;
mod putting;
pub mod sameness;
pub mod steps;
pub mod text;
pub mod wire_code;

pub use codes::direction::Direction;
pub use codes::kind::Kind;
pub use codes::layer_direction::LayerDirection;
pub use codes::layer_type::LayerType;
pub use codes::orient::Orient;
pub use codes::owner::Owner;
pub use codes::place_status::PlaceStatus;
pub use codes::prop_type::PropType;
pub use codes::region_type::RegionType;
pub use codes::row_form::RowForm;
pub use codes::site_class::SiteClass;
pub use codes::track_axis::TrackAxis;
pub use codes::usage::Usage;
pub use codes::wire_status::WireStatus;
pub use codes::{Coded, Worded};
pub use digits::{is_digit, is_negative, with_digits};
pub use eco_state::EcoState;
pub use geometry::{COORDINATE_LIMIT, Placement, Point, Rect, Shape, is_coordinate, oriented_size};
pub use id::{
    BTermId, BlockageId, GroupId, ITermId, InstId, LayerId, MasterId, NetId, PinId, PropId,
    RegionId, RowId, SiteId, TrackId, ViaId, WireId,
};
pub use list::List;
pub use name::{Name, NameFault, name_fault};
pub use putting::put_in;
pub use sameness::same_bytes;
pub use steps::Steps;
pub use text::Text;
pub use wire_code::WireCode;
