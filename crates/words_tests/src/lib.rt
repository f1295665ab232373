//! Tests of LEF and DEF words, script lines and paths, as tables of texts and what they say.
#![tactic(auto)]

#[cfg(test)]
mod paths;
#[cfg(test)]
mod script_lines;
#[cfg(test)]
mod texts;
