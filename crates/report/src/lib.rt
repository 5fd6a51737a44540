// What the two programs print, from the bytes of their files: everything a program does but open, read and write.
#![tactic(auto)]

pub mod check;
pub mod dependents;
mod line;
pub mod program;
mod settle;
mod word;
