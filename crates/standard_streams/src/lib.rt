//! Real streams as sources and sinks. They tell no bytes, and each failure that the system reports is counted as a fault.
#![tactic(auto)]

pub mod standard_input;
pub mod standard_output;

pub use standard_input::StandardInput;
pub use standard_output::StandardOutput;
