//! Tests of DEF texts, as tables of texts and what is read of them.
#![tactic(auto)]

#[cfg(test)]
mod texts;
