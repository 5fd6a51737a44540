// A pass of both searches over the clauses, from the first to the last or back: each clause's entries first, then the literals that they reach.
// Loops over a clause's words go by places, since where the next clause begins is their answer.
ghost use Rattle.std.specs.Prelude.{◌≡◌, Bool, reverse, ◌<◌, ◌≤◌, length};
ghost use Rattle.formula.specs.Decode.{clauses_of};
ghost use Rattle.dependency.specs.Marks.{Boundary, ClauseBefore, pass};
ghost use Rattle.dependency.specs.Search.{ordered};
ghost use Rattle.dependency.specs.Bits.{marks_in, EntriesSeen, ClauseReached, ClausePassed};

use crate::marks::{SEVERAL, Seen, reach_word, see_word};
use crate::scratch::SMALL;
use formula::word::Word;

// What is known of a clause's entries, and where the next clause begins if there are none.
#[derive(Clone, Copy)]
pub struct ClauseEntries {
    pub seen: Seen,
    pub next: usize,
}

// The entries of the clause that begins at `from`; entries of two variables settle it for a search.
fn clause_entry(clauses: &[i32], from: usize, marks: &[u8; SMALL]) -> ClauseEntries
    ensures { EntriesSeen clauses.now from marks.now result }
{
    let mut seen = Seen {
        positive: 0,
        negative: 0,
    };
    for i in from..clauses.len() {
        let word = clauses[i];
        if Word::is_zero(word) {
            return ClauseEntries { seen, next: i + 1 };
        }
        seen = see_word(marks, word, seen);
        if (seen.positive == SEVERAL) & (seen.negative == SEVERAL) {
            return ClauseEntries { seen, next: i + 1 };
        }
    }
    ClauseEntries {
        seen,
        next: clauses.len(),
    }
}

// Marks what the clause's entries reach, and answers where the next clause begins.
fn reach_clause(clauses: &[i32], from: usize, seen: Seen, marks: &mut [u8; SMALL]) -> usize
    ensures { ClauseReached clauses.now from seen marks.old marks.new result }
{
    for i in from..clauses.len() {
        let word = clauses[i];
        if Word::is_zero(word) {
            return i + 1;
        }
        reach_word(seen, word, marks);
    }
    clauses.len()
}

// One clause of a pass, and where the next one begins. A clause without entries is left at once.
fn pass_clause(clauses: &[i32], from: usize, marks: &mut [u8; SMALL]) -> usize
    ensures { ClausePassed clauses.now from marks.old marks.new result }
{
    let entries = clause_entry(clauses, from, marks);
    if (entries.seen.positive == 0) & (entries.seen.negative == 0) {
        return entries.next;
    }
    reach_clause(clauses, from, entries.seen, marks)
}

// One pass from the first clause to the last.
fn pass_forth(clauses: &[i32], marks: &mut [u8; SMALL])
    ensures { (s : Bool) → marks_in s marks.new ≡ pass (clauses_of clauses.now) (marks_in s marks.old) }
{
    let mut at = 0;
    // Clauses are of differing length: where the next one begins is known behind this one.
    while at < clauses.len() {
        at = pass_clause(clauses, at, marks);
    }
}

// Where the clause begins that ends before `end`: behind the 0 of the one before it, or with the table.
fn clause_start(clauses: &[i32], end: usize) -> usize
    requires not_first { 0 < end }
    requires in_table { end ≤ length clauses.now }
    requires at_boundary { Boundary clauses.now end }
    ensures { ClauseBefore clauses.now end result }
{
    for i in (1..end).rev() {
        if Word::is_zero(clauses[i - 1]) {
            return i;
        }
    }
    0
}

// One pass from the last clause to the first.
fn pass_back(clauses: &[i32], marks: &mut [u8; SMALL])
    ensures { (s : Bool) → marks_in s marks.new ≡ pass (reverse (clauses_of clauses.now)) (marks_in s marks.old) }
{
    let mut end = clauses.len();
    // Clauses are of differing length: where the one before ends is known once this one's start is found.
    while 0 < end {
        let from = clause_start(clauses, end);
        pass_clause(clauses, from, marks);
        end = from;
    }
}

// One pass, in either direction, which is a flag alone: it is turned at each pass.
pub fn pass(clauses: &[i32], back: bool, marks: &mut [u8; SMALL])
    ensures { (s : Bool) → marks_in s marks.new ≡ pass (ordered back (clauses_of clauses.now)) (marks_in s marks.old) }
{
    if back {
        pass_back(clauses, marks);
    } else {
        pass_forth(clauses, marks);
    }
}
