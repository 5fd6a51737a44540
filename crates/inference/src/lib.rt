// Steps below layer 3's verdict, each part of a check with its own contract: the words of a step and how they are read, numbered clauses, which
// variables have a quantifier, marks of literals, the result of a step against its statement, and what blocks a reduction.
#![tactic(auto)]

pub mod blocked;
pub mod clause;
pub mod existentials;
pub mod marks;
pub mod numbered;
pub mod read;
pub mod result;
