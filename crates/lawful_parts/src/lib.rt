//! When the parts of a technology and of a library are lawful: each value in its set and its limit, and what a part
//! names there.
//!
//! [The definitions](../specs/Lawful.antt) say it of layers, vias, sites, terminals and masters, and of a whole
//! technology and a whole library; each test here is true exactly where the definition holds. That no two parts of a
//! list have one name is kept by the lists themselves. The laws say that parts stay lawful where a technology grows.
//!
//! A test looks once at each shape. The names of a master's terminals are compared each with those behind it.
#![tactic(auto)]

pub mod laws;
pub mod layer;
pub mod master;
pub mod shapes;
pub mod site;
mod values;
pub mod via;

pub use laws::growing_keeps_lawful;
pub use layer::is_lawful_layer;
pub use master::{TERMINAL_LIMIT, is_lawful_master};
pub use shapes::{SHAPE_LIMIT, UNIT_LIMIT, are_lawful_shapes};
pub use site::is_lawful_site;
pub use via::is_lawful_via;
