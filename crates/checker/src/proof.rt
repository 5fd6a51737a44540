// The check of a proof, on tables and step words: the entries of this layer, which differ in the scratch they ask for.
ghost use Rattle.std.specs.Prelude.{◌≡◌, ◌≤◌, zero, length, replicate};
ghost use Rattle.dependency.specs.Scratch.{small_bound};
ghost use Rattle.formula.specs.Decode.{clauses_of};
ghost use Rattle.formula.specs.Tables.{zeros};
ghost use Rattle.inference.specs.Rules.{resized, plain_rules, small_rules};
ghost use Rattle.inference.specs.Steps.{family_of, run};
ghost use Rattle.inference.specs.Empty.{number_found};
ghost use Rattle.checker.specs.Verdict.{concluded, conclude, sized_verdict, verdict_of, Checked};
ghost use Rattle.inference.specs.Scope.{scope_of};

use crate::run::run_steps;
use crate::verdict::{Accepted, Verdict};
use dependency::scratch::{LATER, SCRATCH, SMALL};
use formula::bounds::ProofLength;
use formula::clear::clear_tail;
use formula::literal::ClauseNumber;
use formula::refusal::{Reason, Refusal};
use formula::tables::{Tables, check_tables_in};
use inference::existentials::{EXISTENTIALS_END, fill_quantified};
use inference::numbered::fill_offsets;

// What was lent, wholly 0: before the steps, and as every check leaves it.
fn clear_lent(scratch: &mut [u8], offsets: &mut [u32])
    ensures { (scratch.new ≡ replicate (length scratch.old) 0) × (offsets.new ≡ replicate (length offsets.old) 0) }
{
    clear_tail(scratch, 0, 0);
    clear_tail(offsets, 0, 0);
}

// All steps are right: the first empty clause decides.
fn conclude_run(inputs: usize, numbered: usize, empty: Option<ClauseNumber>) -> Verdict
    requires { inputs ≤ numbered }
    ensures { result ≡ concluded inputs numbered (number_found empty) }
{
    let Some(number) = empty else {
        return Err(Refusal::new(Reason::NoConclusion, numbered));
    };
    Ok(Accepted {
        empty: number,
        steps: numbered - inputs,
    })
}

// The steps, in the scratch that they need: the existentials and the offsets of the input clauses are filled first.
fn judge_steps<'a>(
    tables: Tables<'a>,
    steps: &'a [i32],
    inputs: usize,
    scratch: &mut [u8; SMALL],
    offsets: &mut [u32],
) -> Verdict
    requires inputs_counted { inputs ≡ zeros tables.clauses.now }
    requires steps_in_bound { length steps.now ≤ 1048576 }
    requires inputs_have_room { inputs ≤ length offsets.old }
    ensures { result ≡ conclude plain_rules inputs (run plain_rules (family_of steps.now) (scope_of tables.entry.prefix.now tables.entry.clauses.now) (length offsets.old) (clauses_of tables.entry.clauses.now) zero steps.now) }
{
    clear_lent(scratch, offsets);
    fill_quantified(
        tables.entries(),
        0,
        true,
        &mut scratch[LATER..EXISTENTIALS_END],
    );
    let first = fill_offsets(tables.clauses, offsets);
    let ended = run_steps(tables, steps, inputs, first, true, scratch, offsets)?;
    conclude_run(inputs, ended.numbered, ended.empty)
}

// The order of refusals after the tables; so many bytes of scratch are asked for: one of two constants, whose bound is a
// clause of the three functions that hand it on.
fn judge_sized<'a>(
    tables: Tables<'a>,
    steps: &'a [i32],
    inputs: usize,
    scratch: &mut [u8],
    offsets: &mut [u32],
    bytes: usize,
) -> Verdict
    requires inputs_counted { inputs ≡ zeros tables.clauses.now }
    requires bytes_enough { small_bound ≤ bytes }
    ensures { result ≡ sized_verdict (resized bytes plain_rules) tables.entry.prefix.now tables.entry.clauses.now steps.now (length scratch.old) (length offsets.old) }
{
    let Some(_) = ProofLength::new(steps.len()) else {
        return Err(Refusal::new(Reason::Oversized, 0));
    };
    if scratch.len() < bytes {
        return Err(Refusal::new(Reason::NoRoom, 0));
    }
    if offsets.len() < inputs {
        return Err(Refusal::new(Reason::NoRoom, offsets.len() + 1));
    }
    let front = scratch.first_chunk_mut::<SMALL>().unwrap();
    judge_steps(tables, steps, inputs, front, offsets)
}

// The verdict; what was lent is left filled. The check of tables marks in the scratch.
fn judge_proof<'a>(
    prefix: &[i32],
    clauses: &'a [i32],
    steps: &'a [i32],
    scratch: &mut [u8],
    offsets: &mut [u32],
    bytes: usize,
) -> Verdict
    requires { small_bound ≤ bytes }
    ensures { result ≡ verdict_of (resized bytes plain_rules) prefix.now clauses.now steps.now (length scratch.old) (length offsets.old) }
{
    let counts = check_tables_in(prefix, clauses, scratch)?;
    judge_sized(
        Tables { prefix, clauses },
        steps,
        counts.clauses,
        scratch,
        offsets,
        bytes,
    )
}

// The check of a proof that asks for so many bytes of scratch. Scratch and offsets (01: starts) end as 0.
fn check_with<'a>(
    prefix: &[i32],
    clauses: &'a [i32],
    steps: &'a [i32],
    scratch: &mut [u8],
    offsets: &mut [u32],
    bytes: usize,
) -> Verdict
    requires { small_bound ≤ bytes }
    ensures { Checked (resized bytes plain_rules) prefix.now clauses.now steps.now scratch.old offsets.old result scratch.new offsets.new }
{
    let verdict = judge_proof(prefix, clauses, steps, scratch, offsets, bytes);
    clear_lent(scratch, offsets);
    verdict
}

// The check of a proof, with the scratch that 01 asks for.
pub fn check_proof<'a>(
    prefix: &[i32],
    clauses: &'a [i32],
    steps: &'a [i32],
    scratch: &mut [u8],
    offsets: &mut [u32],
) -> Verdict
    ensures { Checked plain_rules prefix.now clauses.now steps.now scratch.old offsets.old result scratch.new offsets.new }
{
    check_with(prefix, clauses, steps, scratch, offsets, SCRATCH)
}

// The check of a proof, with the scratch that the check works in and no more.
pub fn check_proof_small<'a>(
    prefix: &[i32],
    clauses: &'a [i32],
    steps: &'a [i32],
    scratch: &mut [u8],
    offsets: &mut [u32],
) -> Verdict
    ensures { Checked small_rules prefix.now clauses.now steps.now scratch.old offsets.old result scratch.new offsets.new }
{
    check_with(prefix, clauses, steps, scratch, offsets, SMALL)
}
