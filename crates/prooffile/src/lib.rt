// The proof file: its trailer, and the step words ahead of it.
#![tactic(auto)]

pub mod file;
