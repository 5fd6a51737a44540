// The check of tables: sizes, a prefix in threes, its entries, clause words, each word from the left by its own rules in order. A clause is
// judged whole: first where its literals end, then the nested search for a clash among them, then the word they end at.
// The 0 words are counted, then one pass over the words, beside that search: quadratic in a clause of at most 1,024 words. Which variables
// are listed is told by marks in what the caller lends, or without them by a pass over the prefix for each word.
ghost use Rattle.std.specs.Prelude.{◌≡◌, true, ◌+◌, ◌%◌, ◌^◌, ◌≤◌, ◌<◌, length, take, drop, ℤ, nat_abs, OnOk};
ghost use mathlib.Core.List.{[], Memᴰ};
ghost use Rattle.formula.specs.Bounds.{variable_bound, in_range};
ghost use Rattle.formula.specs.Refusal.{passes};
ghost use Rattle.formula.specs.Tables.{zeros, prefix_refusal, clauses_refusal, listed_in, words_refusal, tables_answer, Admitted};
ghost use Rattle.formula.specs.Tables.Scan.{AllOrNone, Listing, EntryStep, plain_run, clash_free, ClauseStep};

use crate::bounds::{ClauseCount, MatrixLength, PrefixLength};
use crate::clear::clear_tail;
use crate::listing::{Listed, mark, marks_used};
use crate::literal::{Literal, Variable};
use crate::prefix;
use crate::prefix::{Prefix, next_block};
use crate::refusal::{Reason, Refusal};
use crate::word::Word;

// Of tables that pass the check, the number of variables and of clauses.
#[derive(Clone, Copy, Debug, PartialEq, Eq)]
pub struct Counts {
    pub variables: usize,
    pub clauses: usize,
}

// Tables that pass the check. How many clauses they hold is no field: of those that are handed tables, the writer and the checker ask for it.
#[derive(Clone, Copy)]
pub struct Tables<'a> {
    pub prefix: &'a [i32],
    pub clauses: &'a [i32],
    pub ghost admitted: { Admitted prefix.now clauses.now },
}

impl<'a> Tables<'a> {
    // The prefix as entries.
    pub fn entries(self) -> Prefix<'a>
        ensures { result.words ≡ self.entry.prefix }
    {
        Prefix { words: self.prefix }
    }
}

// Of the last entry that passed the check, its quantifier's number and its block; both are 0 before the first. Numbers and no `Option` of a quantifier: the
// definition of the check, and the contracts by it, go by them.
#[derive(Clone, Copy)]
pub struct LastEntry {
    pub quantifier: usize,
    pub block: usize,
}

// The number of 0 words. A sum, and not `filter` and `count`: that compiles to a branch at each word.
fn count_zeros(clauses: &[i32]) -> usize
    ensures { result ≡ zeros clauses.now }
{
    clauses
        .iter()
        .map(|word| usize::from(Word::is_zero(*word)))
        .sum()
}

// The entry whose first word stands at `at`, behind the entry `last`: its variable's 5 and 6, its quantifier's 5, its block's 6. The
// variable is marked.
fn check_entry(
    prefix: &[i32],
    at: usize,
    last: LastEntry,
    marks: &mut [u8],
) -> Result<LastEntry, Refusal>
    requires at_in_bounds { (at + 2 < length prefix.now) × (at % 3 ≡ 0) × (last.block + 1 < 2 ^ 64) }
    requires listing { Listing (take at prefix.now) marks.old }
    ensures { EntryStep prefix.now at last result marks.new }
{
    let v = Word::ordinal(prefix[at]);
    if v < 1 {
        return Err(Refusal::new(Reason::OutOfRange, at));
    }
    let before = Listed {
        table: &prefix[..at],
        marks,
    };
    if before.has(v) {
        return Err(Refusal::new(Reason::BoundTwice, at));
    }
    let quantifier = Word::ordinal(prefix[at + 1]);
    if (quantifier == 1) | (quantifier == 2) {
        let due = next_block(last.quantifier, last.block, quantifier);
        if Word::ordinal(prefix[at + 2]) == due {
            mark(v, marks);
            return Ok(LastEntry {
                quantifier,
                block: due,
            });
        }
        return Err(Refusal::new(Reason::BoundTwice, at + 2));
    }
    Err(Refusal::new(Reason::OutOfRange, at + 1))
}

// The prefix, entry by entry, marking each variable that is listed. No variable is marked before.
fn check_prefix(prefix: &[i32], marks: &mut [u8]) -> Result<(), Refusal>
    requires { Listing [] marks.old }
    ensures value { result ≡ passes (prefix_refusal 0 [] 0 0 prefix.now) }
    ensures listing { OnOk result (Listing prefix.now marks.new) }
{
    let mut last = LastEntry {
        quantifier: 0,
        block: 0,
    };
    for i in 0..prefix::entry_count(prefix) {
        last = check_entry(prefix, 3 * i, last, marks)?;
    }
    Ok(())
}

// By places, since a place is the answer. Where the literals that begin at `from` end: at the first word that is 0, out of range or unbound, or at the table's end.
fn literals_end(listed: Listed, clauses: &[i32], from: usize) -> usize
    requires { from ≤ length clauses.now }
    ensures { result ≡ from + plain_run (listed_in listed.entry.table.now) (drop from clauses.now) }
{
    for i in from..clauses.len() {
        let v = Word::variable(clauses[i]);
        if v < 1 {
            return i;
        }
        if Variable::MAX < v {
            return i;
        }
        if !listed.has(v) {
            return i;
        }
    }
    clauses.len()
}

// The place of the first literal of a clause that repeats or opposes an earlier one, or the clause's length: how far it goes without a clash, as `clash_free` counts.
fn find_clash(clause: &[i32]) -> usize
    requires { (w : ℤ) → Memᴰ w clause.now → in_range (nat_abs w) variable_bound ≡ true }
    ensures { result ≡ clash_free [] clause.now }
{
    let mut clash = clause.len();
    // The search is to be nested loops left by a label: one of the forms that docs/DECISIONS.md lists.
    'search: for (i, word) in clause.iter().enumerate() {
        let Some(literal) = Literal::new(*word) else {
            return i;
        };
        let opposite = literal.negated();
        for earlier in &clause[..i] {
            if *earlier == literal.0 || *earlier == opposite.0 {
                clash = i;
                break 'search;
            }
        }
    }
    clash
}

// The clause that begins at `from`: 5, 7, 8, and 9 where no 0 closes it. Answers the place after that 0.
fn check_clause(listed: Listed, clauses: &[i32], from: usize) -> Result<usize, Refusal>
    requires { from < length clauses.now }
    ensures { ClauseStep (listed_in listed.entry.table.now) clauses.now from result }
{
    let end = literals_end(listed, clauses, from);
    let clash = find_clash(&clauses[from..end]);
    if clash < end - from {
        return Err(Refusal::new(Reason::Clash, from + clash));
    }
    if clauses.len() <= end {
        return Err(Refusal::new(Reason::Unfinished, end));
    }
    let v = Word::variable(clauses[end]);
    if v < 1 {
        return Ok(end + 1);
    }
    if Variable::MAX < v {
        return Err(Refusal::new(Reason::OutOfRange, end));
    }
    Err(Refusal::new(Reason::Unbound, end))
}

// The clause words, clause by clause.
fn check_clauses(listed: Listed, clauses: &[i32]) -> Result<(), Refusal>
    ensures { result ≡ passes (clauses_refusal (listed_in listed.entry.table.now) 0 [] clauses.now) }
{
    let mut at = 0;
    // The place goes on by a whole clause, so no `for` counts it.
    while at < clauses.len() {
        at = check_clause(listed, clauses, at)?;
    }
    Ok(())
}

// Prefix and clause words, sizes being checked: 9 for a prefix that is not in threes comes first. The marks may hold anything before.
fn check_words(prefix: &[i32], clauses: &[i32], marks: &mut [u8]) -> Result<(), Refusal>
    requires { AllOrNone (length marks.old) }
    ensures { result ≡ passes (words_refusal prefix.now clauses.now) }
{
    if prefix.len() % 3 != 0 {
        return Err(Refusal::new(Reason::Unfinished, prefix.len()));
    }
    clear_tail(marks, 0, 0);
    check_prefix(prefix, marks)?;
    let listed = Listed {
        table: prefix,
        marks,
    };
    check_clauses(listed, clauses)
}

// The check of tables, with marks in what the caller lends: a bit for each variable that the prefix lists where `marks` has at least 128 bytes;
// where it is shorter each question goes through the prefix instead. `marks` is left with anything.
pub fn check_tables_in(prefix: &[i32], clauses: &[i32], marks: &mut [u8]) -> Result<Counts, Refusal>
    ensures { result ≡ tables_answer prefix.now clauses.now }
{
    let oversized = Refusal::new(Reason::Oversized, 0);
    let Some(_) = PrefixLength::new(prefix.len()) else {
        return Err(oversized);
    };
    let Some(_) = MatrixLength::new(clauses.len()) else {
        return Err(oversized);
    };
    let Some(count) = ClauseCount::new(count_zeros(clauses)) else {
        return Err(oversized);
    };
    let used = marks_used(marks.len());
    check_words(prefix, clauses, &mut marks[..used])?;
    Ok(Counts {
        variables: prefix::entry_count(prefix),
        clauses: count.0,
    })
}

// The same with marks of its own. Every entry that takes tables and lends no scratch begins with it.
pub fn check_tables(prefix: &[i32], clauses: &[i32]) -> Result<Counts, Refusal>
    ensures { result ≡ tables_answer prefix.now clauses.now }
{
    let mut marks = [0u8; 128];
    check_tables_in(prefix, clauses, &mut marks)
}
