//! The records of a block: the fields of one object of each kind, and the header of the block.
//!
//! A record has the fields that are the object's own. The lists of the objects that name it (the terminals and
//! wires of a net, the properties of an object, the members of a group and so on) stand with the record in its
//! table, and not in the record; the terminals of an instance alone are a field of its own. A field that names
//! another object has its identifier, and 0 where it names none.
//!
//! Contracts see each record as it is declared, with names, texts and lists as lists.
#![tactic(auto)]

pub mod blockage;
pub mod bterm;
pub mod group;
pub mod header;
pub mod inst;
pub mod iterm;
pub mod net;
pub mod pin;
pub mod prop;
pub mod record;
pub mod region;
pub mod row;
pub mod track;
pub mod wire;

pub use blockage::BlockageRec;
pub use bterm::BTermRec;
pub use group::GroupRec;
pub use header::{BlockVia, Header, PropDef};
pub use inst::{InstRec, Terminals};
pub use iterm::ITermRec;
pub use net::NetRec;
pub use pin::{LayerRects, PinRec};
pub use prop::PropRec;
pub use record::Record;
pub use region::{Rects, RegionRec};
pub use row::RowRec;
pub use track::{Layers, TrackRec};
pub use wire::WireRec;
