// Layer 1: the tables of a formula and their check, the refusals of the checker, reading and writing QDIMACS text.
#![tactic(auto)]

pub mod bounds;
mod clauses;
pub mod clear;
pub mod decimal;
mod free;
mod header;
mod listing;
pub mod literal;
pub mod prefix;
pub mod read;
pub mod refusal;
mod sets;
pub mod tables;
pub mod word;
pub mod words;
pub mod write;
