// Layer 2: which existentials depend on a universal, as rows: a bit a variable in the scratch, a byte in what an entry fills.
#![tactic(auto)]

pub mod answer;
mod marks;
mod pass;
pub mod row;
pub mod scratch;
mod search;
pub mod universal;
