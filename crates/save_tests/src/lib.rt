//! Tests of saved bytes, written out apart from the program, and what they are read as.
#![tactic(auto)]

#[cfg(test)]
mod reading;
#[cfg(test)]
mod saving;
