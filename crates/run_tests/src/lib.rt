//! Tests of whole scripts through `odb_main`, with their replies, files and faults.
#![tactic(auto)]

#[cfg(test)]
mod scripts;
#[cfg(test)]
mod whole_files;
