// A step's marks, one flag a literal. Of an antecedent whose literals another one may oppose: 1 for each. Of a result: 1 for one that is not stated
// yet; the result is marked, its statement ticked off, then all marks are wiped, which tells whether a literal was left unstated. The literal of slot s
// has the flag s - 2.
ghost use Rattle.std.specs.Prelude.{◌≡◌, eqb, get_or, set, neg_ℤ};
ghost use Rattle.bits.specs.Flags.{flags};
ghost use Rattle.formula.specs.Decode.{clause_at};
ghost use Rattle.inference.specs.Clause.{words_of};
ghost use Rattle.inference.specs.Words.{without, InRange};
ghost use Rattle.inference.specs.Marks.{slot_at, marks_in, any_marked, Marked, Ticked, Wiped, alone};

use crate::clause::{ClauseAt, words_from};
use bits::{is_set, put};
use formula::clear::clear_tail;
use formula::word::Word;

// How many bytes hold the marks, eight flags a byte.
pub const MARK_BYTES: usize = 256;

// Whether the opposite of a word is marked.
#[tactic(auto, using(crate::proofs::Signed::opposite_low, crate::proofs::Signed::opposite_high, crate::proofs::Signed::read_opposite, crate::specs::Marks::Laws::mark_read))]
pub fn opposite_marked(word: i32, marks: &[u8; MARK_BYTES]) -> bool
    requires { InRange word }
    ensures { result ≡ eqb (get_or (marks_in marks.now) (slot_at (neg_ℤ word)) 0) 1 }
{
    is_set(marks, Word::opposite_slot(word) - 2)
}

// Marks a word, unless it is the one left out; tells whether its opposite is marked.
#[tactic(auto, using(crate::proofs::Signed::slot_low, crate::proofs::Signed::slot_high))]
fn mark_word(word: i32, except: i32, marks: &mut [u8; MARK_BYTES]) -> bool
    requires { InRange word }
    ensures { Marked (marks_in marks.old) (without except (alone word)) result (marks_in marks.new) }
{
    if except == word {
        return false;
    }
    let met = opposite_marked(word, marks);
    put(marks, Word::slot(word) - 2, true);
    met
}

// Marks the clause but for one literal; tells whether a literal met its opposite. One pass over the clause.
pub fn mark_clause(clause: ClauseAt, except: i32, marks: &mut [u8; MARK_BYTES]) -> bool
    ensures { Marked (marks_in marks.old) (without except (words_of clause.entry)) result (marks_in marks.new) }
{
    let mut told = false;
    let rest = words_from(clause.words, clause.from);
    for &word in rest {
        if Word::is_zero(word) {
            return told;
        }
        told |= mark_word(word, except, marks);
    }
    told
}

// Takes away a word's mark.
#[tactic(auto, using(crate::proofs::Signed::slot_low, crate::proofs::Signed::slot_high, crate::proofs::Signed::read_slot, crate::specs::Marks::Laws::mark_stored))]
pub fn unmark(word: i32, marks: &mut [u8; MARK_BYTES])
    requires { InRange word }
    ensures { marks_in marks.new ≡ set (marks_in marks.old) (slot_at word) 0 }
{
    put(marks, Word::slot(word) - 2, false);
}

// Ticks off a word that is marked: its mark is cleared. Or tells that it is not marked.
#[tactic(auto, using(crate::proofs::Signed::slot_high))]
fn tick_word(word: i32, marks: &mut [u8; MARK_BYTES]) -> bool
    ensures { Ticked (marks_in marks.old) (alone word) result (marks_in marks.new) }
{
    let slot = Word::slot(word);
    if slot < 2 {
        return false;
    }
    if is_set(marks, slot - 2) {
        put(marks, slot - 2, false);
        return true;
    }
    false
}

// Ticks off the clause up to the first word that is not marked, or is ticked off already; tells whether there was none.
pub fn tick(words: &[i32], from: usize, marks: &mut [u8; MARK_BYTES]) -> bool
    ensures { Ticked (marks_in marks.old) (clause_at words.now from) result (marks_in marks.new) }
{
    let rest = words_from(words, from);
    for &word in rest {
        if Word::is_zero(word) {
            return true;
        }
        if !tick_word(word, marks) {
            return false;
        }
    }
    true
}

// Whether a flag of the bytes is 1. It goes by whole bytes and leaves none out, which compiles to a few wide reads.
#[tactic(auto, using(crate::specs::Marks::Laws::any_from, crate::specs::Marks::Laws::any_past))]
fn any_marked(bytes: &[u8]) -> bool
    ensures { result ≡ any_marked (flags bytes.now) }
{
    let mut found = false;
    for &byte in bytes {
        found |= byte != 0;
    }
    found
}

// Wipes all marks; tells whether there was one. One pass over the 256 bytes, whatever was marked: less than the clauses once more.
pub fn wipe(marks: &mut [u8; MARK_BYTES]) -> bool
    ensures { Wiped (marks_in marks.old) result (marks_in marks.new) }
{
    let found = any_marked(marks);
    clear_tail(marks, 0, 0);
    found
}
