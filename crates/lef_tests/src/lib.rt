//! Tests of LEF texts, files and what they build, as tables.
#![tactic(auto)]

#[cfg(test)]
mod building;
#[cfg(test)]
mod files;
#[cfg(test)]
mod texts;
