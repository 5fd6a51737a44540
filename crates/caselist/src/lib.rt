// What the programs that run worked cases share: lists of cases, the words and the bytes that their fields write, and how answers are
// shown. No promise of the checker rests on this crate. What a field writes and what was left clear is proved, what is printed is not.
#![tactic(auto)]

pub mod bytes;
pub mod list;
pub mod show;
pub mod words;
