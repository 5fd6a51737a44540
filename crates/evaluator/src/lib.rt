// The evaluator, 01's referee: plays games of up to 16 variables to the end.
#![tactic(auto)]

mod clause;
pub mod evaluation;
mod matrix;
mod turns;
