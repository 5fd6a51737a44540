// Numbered clauses by the clause offsets (the table that 01 calls starts): for an input clause the place of its first word in
// the clause table, for a step the place of the step's first word, its kind, in the step words. Only this file knows that.
ghost use Rattle.std.specs.Prelude.{◌≡◌, ◌≤◌, ◌+◌, ◌-◌, length, get_or, leb};
ghost use Rattle.formula.specs.Decode.{clauses_of};
ghost use Rattle.inference.specs.Clause.{words_of};
ghost use Rattle.inference.specs.Words.{InRange, AllWords};
ghost use Rattle.inference.specs.Empty.{empty_after};
ghost use Rattle.inference.specs.Numbered.{number_of, table_of, place_of, stored_at, stored, OffsetsFilled};

use crate::clause::{ClauseAt, end_of, is_empty};
use crate::read::statement_of;
use formula::literal::ClauseNumber;

// The number that a word is, if it is one from 1 to the last.
pub fn antecedent_of(word: i32, last: usize) -> Option<ClauseNumber>
    ensures { result ≡ number_of word last }
{
    if word < 0 {
        return None;
    }
    ClauseNumber::new(word as usize, last)
}

// The table that holds a numbered clause.
#[tactic(auto, using(crate::specs::Numbered::Laws::input_or_step))]
pub fn table_of<'a>(
    clauses: &'a [i32],
    steps: &'a [i32],
    inputs: usize,
    number: ClauseNumber,
) -> &'a [i32]
    ensures { result.now ≡ table_of (leb number.0 inputs) clauses.now steps.now }
{
    if number.0 <= inputs {
        return clauses;
    }
    steps
}

// The place of a numbered clause's first word in its table: an input clause's offset; for a step where its statement begins.
#[tactic(auto, using(crate::specs::Numbered::Laws::input_or_step))]
pub fn place_of(steps: &[i32], offsets: &[u32], inputs: usize, number: ClauseNumber) -> usize
    requires number_positive { 1 ≤ number.0 }
    requires number_has_offset { number.0 ≤ length offsets.now }
    ensures { result ≡ place_of (leb number.0 inputs) steps.now (get_or offsets.now (number.0 - 1) 0) }
{
    let n = number.0;
    let offset = offsets[n - 1] as usize;
    if n <= inputs {
        return offset;
    }
    statement_of(steps, offset)
}

// The first `count` numbered clauses, `inputs` of which are the input's: each has its offset, and its words are literals in range.
#[derive(Clone, Copy)]
pub struct Known<'a> {
    pub clauses: &'a [i32],
    pub steps: &'a [i32],
    pub offsets: &'a [u32],
    pub inputs: usize,
    pub count: usize,
    pub ghost in_bounds: { count ≤ length offsets.now },
    pub ghost in_range: { AllWords InRange (stored inputs clauses.now steps.now offsets.now count) },
}

impl<'a> Known<'a> {
    ghost use Rattle.inference.specs.Steps.{antecedent};
    ghost use Rattle.inference.specs.Known.{known_in, words_if};

    // A numbered clause.
    #[tactic(auto, using(crate::specs::Numbered::Laws::stored_by_number))]
    fn clause_of(self, number: ClauseNumber) -> ClauseAt<'a>
        requires number_positive { 1 ≤ number.0 }
        requires number_in_count { number.0 ≤ self.count }
        ensures { words_of result ≡ stored_at self.entry.inputs self.entry.clauses.now self.entry.steps.now self.entry.offsets.now (number.0 - 1) }
    {
        ClauseAt {
            words: table_of(self.clauses, self.steps, self.inputs, number),
            from: place_of(self.steps, self.offsets, self.inputs, number),
        }
    }

    // The clause whose number a word is, if it is one's.
    #[tactic(auto, using(crate::specs::Numbered::Laws::number_antecedent, crate::specs::Numbered::Laws::number_no_antecedent))]
    pub fn find(self, word: i32) -> Option<ClauseAt<'a>>
        ensures { words_if result ≡ antecedent (known_in self.entry) word }
    {
        let Some(number) = antecedent_of(word, self.count) else {
            return None;
        };
        Some(self.clause_of(number))
    }
}

// The first empty clause once one more clause is numbered: that one, if it is empty, and so ends the proof, and none was before.
pub fn empty_after(
    empty: Option<ClauseNumber>,
    ends: bool,
    number: ClauseNumber,
) -> Option<ClauseNumber>
    ensures { result ≡ empty_after empty ends number }
{
    empty.or(ends.then_some(number))
}

// The offsets of the input clauses; answers which is the first empty one. One pass over the clause words.
#[tactic(auto, using(formula::specs::Decode::Places::clause_within))]
pub fn fill_offsets(clauses: &[i32], offsets: &mut [u32]) -> Option<ClauseNumber>
    requires table_in_bound { length clauses.now ≤ 65536 }
    requires inputs_have_room { length (clauses_of clauses.now) ≤ length offsets.old }
    ensures { OffsetsFilled clauses.now result offsets.new }
{
    let mut n = 0;
    let mut empty = None;
    let mut from = 0;
    // Each turn goes on by a whole clause, however long: no `for` counts the place.
    while from < clauses.len() {
        empty = empty_after(empty, is_empty(clauses, from), ClauseNumber::at(n));
        offsets[n] = from as u32;
        n += 1;
        from = end_of(clauses, from) + 1;
    }
    empty
}
