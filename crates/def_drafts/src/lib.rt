//! The elements of a DEF text while they are read (LEF/DEF 5.8 Language Reference, DEF Syntax).
//!
//! Each element is a draft of its own: what a word begins in it by what was read of it so far, what a statement sets, and
//! what it is when it has ended. Options that any element may have are [`Options`]: words that are kept as they are, and
//! values of properties.
//!
//! A statement changes its draft in place and takes a time that doesn't grow with what was read before, but for names of
//! properties and members, which are looked up in their order.
#![tactic(auto)]

pub mod blockage;
pub mod component;
pub mod definition;
pub mod element;
pub mod group;
pub mod kept_words;
pub mod net;
pub mod options;
pub mod pin;
pub mod region;
pub mod row;
pub mod track;
pub mod values;
pub mod via;

pub use blockage::{BlockageDraft, BlockageSpot};
pub use component::ComponentDraft;
pub use definition::DefinitionDraft;
pub use element::Element;
pub use group::GroupDraft;
pub use kept_words::KeptWords;
pub use net::{NetDraft, Wire};
pub use options::{DefBegun, OptionSpot, Options};
pub use pin::{PinDraft, PinSpot, PortDraft};
pub use region::RegionDraft;
pub use row::{RowDraft, Sites};
pub use track::TrackDraft;
pub use via::ViaDraft;
