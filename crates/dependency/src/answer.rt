// The entries that give a dependency row, one for each size of scratch: the order of their refusals, then the row, then clear buffers.
ghost use Rattle.std.specs.Prelude.{◌≡◌, ◌&&◌, ◌++◌, ◌<◌, ◌≤◌, length, drop, eqb};
ghost use Rattle.qbf.specs.Formula.{universal};
ghost use Rattle.formula.specs.Refusal.{passes};
ghost use Rattle.formula.specs.Prefix.{entry_at, entry_count, is_quantifier, quantifies};
ghost use Rattle.formula.specs.Held.{prefix_in, formula_in};
ghost use Rattle.dependency.specs.Scratch.{scratch_bound, small_bound, row_in};
ghost use Rattle.dependency.specs.Answer.{asked_bytes, asked_refusal, asked_for, room_refusal, row_refusal, RowFilled, RowDone};

use crate::row::{depends_in, make_row};
use crate::scratch::{SCRATCH, SMALL};
use crate::universal::Universal;
use formula::clear::clear_tail;
use formula::literal::Variable;
use formula::prefix::{Entry, Prefix};
use formula::refusal::{Reason, Refusal};
use formula::tables::{Tables, check_tables_in};
use formula::word::Word;

// The entry at a place is this variable, universal.
fn is_universal_at(prefix: Prefix, place: usize, variable: Variable) -> bool
    requires { place < entry_count prefix.words.now }
    ensures { result ≡ (is_quantifier universal (entry_at prefix.entry.words.now place).quantifier && eqb (entry_at prefix.entry.words.now place).variable variable.0) }
{
    match prefix.entry_at(place) {
        Entry::Existential(_) => false,
        Entry::Universal(u) => u == variable,
    }
}

// The variable is universal in the prefix. One pass over the entries.
pub fn is_universal(prefix: Prefix, variable: Variable) -> bool
    ensures { result ≡ quantifies universal (prefix_in prefix.entry) variable.0 }
{
    (0..prefix.count()).any(|i| is_universal_at(prefix, i, variable))
}

// The refusal for the buffers' lengths, which comes last; so many bytes of scratch are asked for.
fn room_answer(row: usize, scratch: usize, bytes: usize) -> Result<(), Refusal>
    ensures { result ≡ passes (room_refusal bytes row scratch) }
{
    if row < 1_025 {
        return Err(Refusal::new(Reason::NoRoom, 0));
    }
    if scratch < bytes {
        return Err(Refusal::new(Reason::NoRoom, 0));
    }
    Ok(())
}

// The refusals that come after those of the tables; without one, the universal that is asked for.
fn asked_answer(
    prefix: Prefix,
    variable: i32,
    row: usize,
    scratch: usize,
    bytes: usize,
) -> Result<Variable, Refusal>
    ensures { result ≡ asked_for (asked_refusal bytes (prefix_in prefix.entry) variable row scratch) variable }
{
    let other = Refusal::new(Reason::NotUniversal, 0);
    let Word::Positive(v) = Word::of(variable) else {
        return Err(other);
    };
    if !is_universal(prefix, v) {
        return Err(other);
    }
    room_answer(row, scratch, bytes)?;
    Ok(v)
}

// All refusals in order; without one, the universal that is asked for. The check of tables marks in scratch.
fn row_answer(
    prefix: &[i32],
    clauses: &[i32],
    variable: i32,
    row: usize,
    scratch: &mut [u8],
    bytes: usize,
) -> Result<Variable, Refusal>
    ensures { result ≡ asked_for (row_refusal bytes prefix.now clauses.now variable row (length scratch.old)) variable }
{
    check_tables_in(prefix, clauses, scratch)?;
    let entries = Prefix { words: prefix };
    asked_answer(entries, variable, row, scratch.len(), bytes)
}

// Writes a row that was made to the front of the row's buffer: 1 for a dependent, 0 elsewhere.
fn copy_row(made: &[u8; SMALL], row: &mut [u8])
    requires { 1025 ≤ length row.old }
    ensures { row.new ≡ asked_bytes (row_in made.now) 1025 ++ drop 1025 row.old }
{
    for i in 0..1_025 {
        row[i] = u8::from(depends_in(made, i));
    }
}

// The row with what follows it cleared, and scratch cleared.
fn write_row(universal: Universal, row: &mut [u8], scratch: &mut [u8])
    requires row_enough { 1025 ≤ length row.old }
    requires scratch_enough { small_bound ≤ length scratch.old }
    ensures { RowFilled (formula_in universal.entry.tables) universal.entry.variable.0 row.old scratch.old row.new scratch.new }
{
    let made = scratch.first_chunk_mut::<SMALL>().unwrap();
    make_row(universal, made);
    copy_row(made, row);
    clear_tail(row, 1_025, 0);
    clear_tail(scratch, 0, 0);
}

// The dependency row, with so many bytes of scratch asked for: as many as a row is made in, or more.
fn row_with(
    prefix: &[i32],
    clauses: &[i32],
    variable: i32,
    row: &mut [u8],
    scratch: &mut [u8],
    bytes: usize,
) -> Result<(), Refusal>
    requires { small_bound ≤ bytes }
    ensures { RowDone bytes prefix.now clauses.now variable row.old scratch.old result row.new scratch.new }
{
    match row_answer(prefix, clauses, variable, row.len(), scratch, bytes) {
        Ok(v) => {
            let tables = Tables { prefix, clauses };
            let universal = Universal {
                tables,
                variable: v,
            };
            write_row(universal, row, scratch);
            Ok(())
        }
        Err(refusal) => {
            clear_tail(row, 0, 0);
            clear_tail(scratch, 0, 0);
            Err(refusal)
        }
    }
}

// The dependency row of a universal of the prefix, whose number is `variable`.
pub fn dependency_row(
    prefix: &[i32],
    clauses: &[i32],
    variable: i32,
    row: &mut [u8],
    scratch: &mut [u8],
) -> Result<(), Refusal>
    ensures { RowDone scratch_bound prefix.now clauses.now variable row.old scratch.old result row.new scratch.new }
{
    row_with(prefix, clauses, variable, row, scratch, SCRATCH)
}

// The same from 640 bytes of scratch.
pub fn dependency_row_small(
    prefix: &[i32],
    clauses: &[i32],
    variable: i32,
    row: &mut [u8],
    scratch: &mut [u8],
) -> Result<(), Refusal>
    ensures { RowDone small_bound prefix.now clauses.now variable row.old scratch.old result row.new scratch.new }
{
    row_with(prefix, clauses, variable, row, scratch, SMALL)
}
