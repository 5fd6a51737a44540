// The library for C: each function calls one entry. Those on tables, text and proofs return 0 or the refusal's number and fill `out`;
// those on whole files answer the bytes that they printed. include/qdr.h declares them.
#![tactic(auto)]

mod codes;
pub mod lines;
pub mod proof;
pub mod tables;
pub mod text;
