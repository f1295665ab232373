//! The records of a saved database, as bytes: how each is written, and what bytes spell, or the first fault from the
//! front.
//!
//! [`read_saved`] reads a mark, the version, a technology, the masters of a library, the header of a block and its
//! twelve tables. Each field is read and judged as the crate `saved_fields` has it, and the number of a list's items before
//! the items. Whether what was read fits together (names, identifiers, lists and free identifiers) isn't judged.
//!
//! A record is one table of fields, a `Format` of `saved_fields`: which values may be saved, their bytes, and how they are
//! read. Beside it stand the calls that read the record and write it ([`lists::Spelled`], [`saves::Saves`],
//! [`saves::SavesObject`]). Objects of seven kinds are still to come. Their records are read and written like the others,
//! but until then their tables have no slots and no free identifiers, the header is that of a new block, a list that only
//! they can fill is empty, and so are kept words, the code of a wire and the value of a property.
//!
//! Reading takes time for the bytes, and memory for what was read: a number of items that the bytes don't hold takes
//! none.
#![tactic(auto)]

pub mod grouping;
pub mod header;
pub mod lists;
pub mod masters;
pub mod objects;
pub mod physical;
pub mod reading;
pub mod saved;
pub mod saves;
pub mod tables;
pub mod technology;

pub use reading::read_saved;
pub use saved::{Saved, SavedTech};
pub use saved_fields::ReadFault;
