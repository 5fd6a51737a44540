// What the second program prints: for each universal the dependents of its row, or the refused line. Each writing function
// answers the place behind what it wrote; room is asked for once, at the end. No `Display`: see decimal.rt of `formula`.
ghost use Rattle.std.specs.Prelude.{[], ◌+◌, ◌^◌, ◌<◌, length};
ghost use Rattle.formula.specs.Decode.{formula_of};
ghost use Rattle.formula.specs.Prefix.{prefix_of, entry_count, entry_at};
ghost use Rattle.formula.specs.Held.{prefix_in, formula_in};
ghost use Rattle.formula.specs.Store.{Stores};
ghost use Rattle.dependency.specs.Scratch.{row_in};
ghost use Rattle.report.specs.Dependents.{if_dependent, universal_line, entry_line, universal_lines, tables_text, dependency_text, text_room, LinesPrinted};
ghost use Rattle.report.specs.Check.{lent};
ghost use Rattle.report.specs.Dependents.Listing.{marked, row_line};
ghost use Rattle.report.specs.Printing.{StoresShort};

use crate::line::{finish, refused_line};
use crate::settle::settle_formula;
use dependency::row::{depends_in, make_row};
use dependency::scratch::{SCRATCH, SMALL};
use dependency::universal::Universal;
use formula::clear::clear_tail;
use formula::decimal::{put, write_number};
use formula::literal::Variable;
use formula::prefix::{Entry, Prefix, entry_count};
use formula::refusal::{Reason, Refusal};
use formula::tables::Tables;

// A variable with the space before it, where it is a dependent.
fn write_dependent(text: &mut [u8], at: usize, dependent: bool, variable: Variable) -> usize
    requires { at + length (if_dependent dependent variable.0) < 2 ^ 64 }
    ensures { Stores text.old at (if_dependent dependent variable.0) text.new result }
{
    if dependent {
        let next = put(text, at, b' ');
        return write_number(text, next, variable.0);
    }
    at
}

// The dependents, in prefix order, by the row that was made.
fn write_dependents(prefix: Prefix, made: &[u8; SMALL], text: &mut [u8], at: usize) -> usize
    requires { at + length (marked (row_in made.now) (prefix_of prefix.words.now)) < 2 ^ 64 }
    ensures { Stores text.old at (marked (row_in made.now) (prefix_in prefix.entry)) text.new result }
{
    let mut next = at;
    for i in 0..prefix.count() {
        let variable = prefix.variable_at(i);
        next = write_dependent(text, next, depends_in(made, variable.0), variable);
    }
    next
}

// The line of a universal from its row.
fn write_row_line(
    prefix: Prefix,
    made: &[u8; SMALL],
    variable: Variable,
    text: &mut [u8],
    at: usize,
) -> usize
    requires { at + length (row_line (row_in made.now) (prefix_of prefix.words.now) variable.0) < 2 ^ 64 }
    ensures { Stores text.old at (row_line (row_in made.now) (prefix_in prefix.entry) variable.0) text.new result }
{
    let mut next = write_number(text, at, variable.0);
    next = put(text, next, b':');
    next = write_dependents(prefix, made, text, next);
    put(text, next, b'\n')
}

// The line of a universal. Its row is made in `work`, where it stays.
fn write_universal(
    universal: Universal,
    work: &mut [u8; SMALL],
    text: &mut [u8],
    at: usize,
) -> usize
    requires { at + length (universal_line (formula_of universal.tables.prefix.now universal.tables.clauses.now) (prefix_of universal.tables.prefix.now) universal.variable.0) < 2 ^ 64 }
    ensures { Stores text.old at (universal_line (formula_in universal.entry.tables) (prefix_of universal.entry.tables.prefix.now) universal.entry.variable.0) text.new result }
{
    make_row(universal, work);
    let entries = universal.tables.entries();
    write_row_line(entries, work, universal.variable, text, at)
}

// The line of the entry at `place`, if it is a universal's.
fn write_entry_line(
    tables: Tables,
    place: usize,
    work: &mut [u8; SMALL],
    text: &mut [u8],
    at: usize,
) -> usize
    requires place_in { place < entry_count tables.prefix.now }
    requires place_fits { at + length (entry_line (formula_of tables.prefix.now tables.clauses.now) (prefix_of tables.prefix.now) (entry_at tables.prefix.now place)) < 2 ^ 64 }
    ensures { Stores text.old at (entry_line (formula_in tables.entry) (prefix_of tables.entry.prefix.now) (entry_at tables.entry.prefix.now place)) text.new result }
{
    match tables.entries().entry_at(place) {
        Entry::Existential(_) => at,
        Entry::Universal(variable) => {
            let universal = Universal { tables, variable };
            write_universal(universal, work, text, at)
        }
    }
}

// The lines of all universals, in prefix order: a row is made for each.
fn write_lines(tables: Tables, work: &mut [u8; SMALL], text: &mut [u8]) -> usize
    ensures { Stores text.old 0 (universal_lines (formula_in tables.entry) (prefix_of tables.entry.prefix.now) (prefix_of tables.entry.prefix.now)) text.new result }
{
    let mut next = 0;
    for place in 0..entry_count(tables.prefix) {
        next = write_entry_line(tables, place, work, text, next);
    }
    next
}

// The lines for tables that were read: 3 where scratch is too short for a row.
fn write_tables(tables: Tables, scratch: &mut [u8], text: &mut [u8]) -> usize
    ensures { StoresShort text_room text.old (tables_text (length scratch.old) tables.entry.prefix.now tables.entry.clauses.now) text.new result }
{
    if scratch.len() < SCRATCH {
        return refused_line(text, Refusal::new(Reason::NoRoom, 0));
    }
    let work = scratch.first_chunk_mut::<SMALL>().unwrap();
    write_lines(tables, work, text)
}

// The lines of the formula's file, or its refusal. Tables and scratch are left as they were used.
fn write_settled(
    formula: &[u8],
    file_bound: usize,
    prefix: &mut [i32],
    clauses: &mut [i32],
    scratch: &mut [u8],
    text: &mut [u8],
) -> usize
    ensures { StoresShort text_room text.old (dependency_text (lent file_bound prefix.old clauses.old [] scratch.old []) formula.now) text.new result }
{
    match settle_formula(formula, file_bound, prefix, clauses) {
        Err(r) => refused_line(text, r),
        Ok(filled) => {
            let tables = Tables {
                prefix: &prefix[..filled.prefix_used],
                clauses: &clauses[..filled.clauses_used],
            };
            write_tables(tables, scratch, text)
        }
    }
}

// Prints the lines of the formula's file, of at most `file_bound` bytes, into `text` and answers how many bytes they are: 0 where
// they do not fit. All else that was lent ends as zeros.
pub fn dependency_lines(
    formula: &[u8],
    file_bound: usize,
    prefix: &mut [i32],
    clauses: &mut [i32],
    scratch: &mut [u8],
    text: &mut [u8],
) -> usize
    ensures { LinesPrinted (lent file_bound prefix.old clauses.old [] scratch.old []) formula.now text.old text.new result prefix.new clauses.new scratch.new }
{
    let end = write_settled(formula, file_bound, prefix, clauses, scratch, text);
    clear_tail(prefix, 0, 0);
    clear_tail(clauses, 0, 0);
    clear_tail(scratch, 0, 0);
    finish(text, end)
}
