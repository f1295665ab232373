//! Tests of the database, its tables, the parts that enter it and the queries, as tables of calls and answers.
#![tactic(auto)]

#[cfg(test)]
mod blocks;
#[cfg(test)]
mod parts;
#[cfg(test)]
mod queries;
#[cfg(test)]
mod tables;
