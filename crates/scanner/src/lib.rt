// A formula's text as tokens, each with its place, line and column: what the reader of layer 1 goes by.
#![tactic(auto)]

pub mod position;
pub mod token;
