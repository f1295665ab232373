//! Tests of what no clause says of the lowest crates: that memory which is ample suffices, and values from outside them.
#![tactic(auto)]

#[cfg(test)]
mod fields;
#[cfg(test)]
mod indexes;
#[cfg(test)]
mod kinds_and_numbers;
#[cfg(test)]
mod limits;
#[cfg(test)]
mod links;
#[cfg(test)]
mod masters;
#[cfg(test)]
mod named_lists;
#[cfg(test)]
mod named_pools;
#[cfg(test)]
mod names_and_codes;
#[cfg(test)]
mod pools;
#[cfg(test)]
mod records;
#[cfg(test)]
mod steps_and_edits;
#[cfg(test)]
mod streams;
#[cfg(test)]
mod technology;
