// The writer of formulas. Every writing function answers the place behind what it wrote; none asks for room but the last. No `Display`: see decimal.rt.
ghost use Rattle.std.specs.Prelude.{◌≡◌, [], ◌∷◌, ◌++◌, ◌+◌, ◌^◌, ◌<◌, ◌≤◌, length, eqb, nat_abs};
ghost use Rattle.formula.specs.Bounds.{variable_bound};
ghost use Rattle.formula.specs.Held.{prefix_in};
ghost use Rattle.formula.specs.Prefix.{prefix_of, entry_count, entry_at};
ghost use Rattle.formula.specs.Decimal.{decimal};
ghost use Rattle.formula.specs.Store.{Stores};
ghost use Rattle.formula.specs.Tables.{zeros};
ghost use Rattle.formula.specs.Write.{largest, header_text, letter_of, written, Writes};
ghost use Rattle.formula.specs.Write.Stream.{line_end, line_turn, entry_text, prefix_text, word_text, clauses_text, Bounded, Finishes};

use crate::prefix::{Entry, Prefix};
use crate::refusal::{Reason, Refusal};
use crate::tables::{Tables, check_tables};
use crate::word::Word;
use crate::{clear, decimal};

// The letter of the quantifier of the entry at a place.
fn letter_at(prefix: Prefix, place: usize) -> u8
    requires { place < entry_count prefix.words.now }
    ensures { result ≡ letter_of (entry_at prefix.entry.words.now place).quantifier }
{
    match prefix.entry_at(place) {
        Entry::Existential(_) => b'e',
        Entry::Universal(_) => b'a',
    }
}

// The largest variable number of a prefix, 0 if it has no entry.
fn largest_variable(prefix: Prefix) -> usize
    ensures { result ≡ largest (prefix_in prefix.entry) }
{
    let mut top: usize = 0;
    for i in 0..prefix.count() {
        top = top.max(prefix.variable_at(i).0);
    }
    top
}

// The header line, from V and C.
fn write_header(text: &mut [u8], top: usize, count: usize) -> usize
    requires { length (header_text top count) < 2 ^ 64 }
    ensures { Stores text.old 0 (header_text top count) text.new result }
{
    let mut at = decimal::write_bytes(text, 0, b"p cnf ");
    at = decimal::write_number(text, at, top);
    at = decimal::put(text, at, b' ');
    at = decimal::write_number(text, at, count);
    decimal::put(text, at, b'\n')
}

// The end of the line whose letter is `last`, if one is open.
fn end_line(text: &mut [u8], at: usize, last: u8) -> usize
    requires { at + length (line_end last) < 2 ^ 64 }
    ensures { Stores text.old at (line_end last) text.new result }
{
    if last == 0 {
        return at;
    }
    decimal::write_bytes(text, at, b"0\n")
}

// A line for the letter: the one that is open, or a new one.
fn turn_line(text: &mut [u8], at: usize, last: u8, letter: u8) -> usize
    requires { at + length (line_turn (eqb last letter) last letter) < 2 ^ 64 }
    ensures { Stores text.old at (line_turn (eqb last letter) last letter) text.new result }
{
    if last == letter {
        return at;
    }
    let mut next = end_line(text, at, last);
    next = decimal::put(text, next, letter);
    decimal::put(text, next, b' ')
}

// A number and the space behind it.
fn write_spaced(text: &mut [u8], at: usize, n: usize) -> usize
    requires { at + length (decimal n ++ (32 ∷ [])) < 2 ^ 64 }
    ensures { Stores text.old at (decimal n ++ (32 ∷ [])) text.new result }
{
    let next = decimal::write_number(text, at, n);
    decimal::put(text, next, b' ')
}

// A variable, on the line of its quantifier's letter.
fn write_entry(text: &mut [u8], at: usize, last: u8, letter: u8, variable: usize) -> usize
    requires { at + length (entry_text last letter variable) < 2 ^ 64 }
    ensures { Stores text.old at (entry_text last letter variable) text.new result }
{
    let next = turn_line(text, at, last, letter);
    write_spaced(text, next, variable)
}

// The prefix lines: entries of one quantifier that stand together share a line.
fn write_prefix(prefix: Prefix, text: &mut [u8], at: usize) -> usize
    requires { at + length (prefix_text 0 (prefix_of prefix.words.now)) < 2 ^ 64 }
    ensures { Stores text.old at (prefix_text 0 (prefix_in prefix.entry)) text.new result }
{
    let mut next = at;
    // The letter ahead of the first entry: 0, as no letter is.
    let mut last = 0;
    for i in 0..prefix.count() {
        let letter = letter_at(prefix, i);
        let variable = prefix.variable_at(i);
        next = write_entry(text, next, last, letter, variable.0);
        last = letter;
    }
    end_line(text, next, last)
}

// A clause word: a literal and a space, or the end of its line.
fn write_word(text: &mut [u8], at: usize, word: i32) -> usize
    requires in_range { nat_abs word ≤ variable_bound }
    requires place_fits { at + length (word_text word) < 2 ^ 64 }
    ensures { Stores text.old at (word_text word) text.new result }
{
    match Word::of(word) {
        Word::Zero => decimal::write_bytes(text, at, b"0\n"),
        Word::TooLarge => at,
        Word::Positive(v) => write_spaced(text, at, v.0),
        Word::Negative(v) => {
            let next = decimal::put(text, at, b'-');
            write_spaced(text, next, v.0)
        }
    }
}

// The clause lines.
fn write_clauses(clauses: &[i32], text: &mut [u8], at: usize) -> usize
    requires bounded { Bounded clauses.now }
    requires place_fits { at + length (clauses_text clauses.now) < 2 ^ 64 }
    ensures { Stores text.old at (clauses_text clauses.now) text.new result }
{
    let mut next = at;
    for word in clauses {
        next = write_word(text, next, *word);
    }
    next
}

// The whole text of tables that passed the check.
fn write_tables(tables: Tables, count: usize, text: &mut [u8]) -> usize
    requires { count ≡ zeros tables.clauses.now }
    ensures { Stores text.old 0 (written tables.entry.prefix.now tables.entry.clauses.now) text.new result }
{
    let prefix = tables.entries();
    let top = largest_variable(prefix);
    let mut at = write_header(text, top, count);
    at = write_prefix(prefix, text, at);
    write_clauses(tables.clauses, text, at)
}

// The end of a writing: room is asked for here, and what was not used is cleared. Answers the used length.
fn finish(text: &mut [u8], used: usize) -> Result<usize, Refusal>
    ensures { Finishes text.old used result text.new }
{
    if clear::keep_used(text, used) {
        return Ok(used);
    }
    Err(Refusal::new(Reason::NoRoom, 0))
}

// Writes the tables as a text and answers the used length, or says why not: the tables' refusals, then 3 at 0 where the text is too
// short.
pub fn write_formula(prefix: &[i32], clauses: &[i32], text: &mut [u8]) -> Result<usize, Refusal>
    ensures { Writes prefix.now clauses.now (length text.old) result text.new }
{
    match check_tables(prefix, clauses) {
        Err(refusal) => {
            clear::clear_tail(text, 0, 0);
            Err(refusal)
        }
        Ok(counts) => {
            let tables = Tables { prefix, clauses };
            let used = write_tables(tables, counts.clauses, text);
            finish(text, used)
        }
    }
}
