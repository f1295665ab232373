//! The paths of wires: as words of DEF texts, as values, and as codes of bytes, both ways between codes and values.
//!
//! A wire is one path or more. A [`Path`] has a layer, a width, a shape, a taper and elements: points, vias and
//! rectangles (LEF/DEF 5.8 Language Reference, DEF NETS and SPECIALNETS, regular and special wiring). In a text it
//! has the names of its layer and vias ([`NamedPaths`]); a database holds their numbers ([`Paths`]), as a code.
//!
//! [`parse`] reads words. [`PathReader`] does so one word after another, for who has the words of a whole text, and
//! tells what is wrong with a word ([`PathFlaw`]). The words of one wire, each point written whole, are at most
//! 1,000,000 bytes ([`words_take_room`]).
//!
//! [`encode`] writes a code and [`decode`] reads it. [`lawful`] judges a code and [`Items`] gives its elements one
//! after another; neither takes memory. Each path has one code ([`codes_are_read_back`],
//! [`codes_have_one_spelling`]).
//!
//! Each call goes over its words or bytes once, and a reader changes in its place. `parse` and `decode` make a few
//! allocations a path, `encode` those of one vector. Which name is which layer or via is for others to say.
#![tactic(auto)]

mod decoding;
mod elements;
mod encoding;
mod fault;
mod fields;
mod item;
mod items;
mod judging;
mod laws;
mod limits;
mod number;
mod open_path;
mod parsing;
mod path;
mod path_reader;
mod path_word;
mod place_words;
mod spot;
mod words;

pub use decoding::decode;
pub use encoding::encode;
pub use fault::{PathFault, PathFlaw, PathStop, WireFault};
pub use item::Item;
pub use items::Items;
pub use judging::lawful;
pub use laws::{
    accepted_codes_are_decoded, codes_are_read_back, codes_have_one_spelling, words_take_room,
};
pub use number::signed_number;
pub use parsing::parse;
pub use path::{Element, NamedPaths, Path, Paths, Taper, ViaRef};
pub use path_reader::PathReader;
