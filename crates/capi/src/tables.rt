// C functions on the tables of a formula: their check, a dependency row, the evaluator.
ghost use Rattle.std.specs.Prelude.{◌≡◌, Result, Bool, ⊤};
ghost use Rattle.formula.specs.Tables.{tables_answer};
ghost use Rattle.formula.specs.declared.refusal.Refusal.{Refusal as Refused};
ghost use Rattle.formula.specs.declared.tables.Counts.{Counts};
ghost use Rattle.dependency.specs.Scratch.{scratch_bound, small_bound};
ghost use Rattle.dependency.specs.Answer.{RowDone};
ghost use Rattle.evaluator.specs.Evaluation.{evaluation_of};
ghost use Rattle.capi.specs.Codes.{Told, Tells, tables_code, row_code, evaluation_code};

use crate::codes::{accept, refuse};
use dependency::answer::{dependency_row, dependency_row_small};
use evaluator::evaluation::evaluate;
use formula::refusal::Refusal;
use formula::tables::check_tables;

// The check of tables: `out` is the variables, the clauses and zeros.
#[unsafe(no_mangle)]
pub extern "C" fn qdr_check_tables(prefix: &[i32], clauses: &[i32], out: &mut [u64; 5]) -> u32
    ensures { Tells tables_code (λ (a : Result Counts Refused). a ≡ tables_answer prefix.now clauses.now) result out.new }
{
    match check_tables(prefix, clauses) {
        Ok(counts) => accept(out, counts.variables, counts.clauses, 0),
        Err(r) => refuse(out, r),
    }
}

// What the entries for a row answer: zeros in `out`, or the refusal.
fn tell_row(out: &mut [u64; 5], answer: Result<(), Refusal>) -> u32
    ensures { Told (row_code answer) result out.new }
{
    match answer {
        Ok(()) => accept(out, 0, 0, 0),
        Err(r) => refuse(out, r),
    }
}

// The dependency row of a universal, into `row`: `out` is zeros.
#[unsafe(no_mangle)]
pub extern "C" fn qdr_row(
    prefix: &[i32],
    clauses: &[i32],
    variable: i32,
    row: &mut [u8],
    scratch: &mut [u8],
    out: &mut [u64; 5],
) -> u32
    ensures { Tells row_code (λ (a : Result ⊤ Refused). RowDone scratch_bound prefix.now clauses.now variable row.old scratch.old a row.new scratch.new) result out.new }
{
    tell_row(out, dependency_row(prefix, clauses, variable, row, scratch))
}

// The same from 640 bytes of scratch.
#[unsafe(no_mangle)]
pub extern "C" fn qdr_row_small(
    prefix: &[i32],
    clauses: &[i32],
    variable: i32,
    row: &mut [u8],
    scratch: &mut [u8],
    out: &mut [u64; 5],
) -> u32
    ensures { Tells row_code (λ (a : Result ⊤ Refused). RowDone small_bound prefix.now clauses.now variable row.old scratch.old a row.new scratch.new) result out.new }
{
    tell_row(
        out,
        dependency_row_small(prefix, clauses, variable, row, scratch),
    )
}

// The evaluator: `out` is 1 for true or 0 for false, then zeros.
#[unsafe(no_mangle)]
pub extern "C" fn qdr_evaluate(prefix: &[i32], clauses: &[i32], out: &mut [u64; 5]) -> u32
    ensures { Tells evaluation_code (λ (a : Result Bool Refused). a ≡ evaluation_of prefix.now clauses.now) result out.new }
{
    match evaluate(prefix, clauses) {
        Ok(value) => accept(out, value as usize, 0, 0),
        Err(r) => refuse(out, r),
    }
}
