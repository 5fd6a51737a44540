// The first program: from the bytes of its two files to its line. The formula is settled before the proof file is looked at.
ghost use Rattle.std.specs.Prelude.{◌≤◌, length};
ghost use Rattle.formula.specs.Bounds.{count_bound};
ghost use Rattle.formula.specs.Prefix.{entry_count};
ghost use Rattle.inference.specs.Rules.{plain_rules};
ghost use Rattle.checker.specs.Verdict.{verdict_of};
ghost use Rattle.report.specs.Check.{verdict_line, settled_proof, steps_line, check_line, LineChecked, lent};
ghost use Rattle.report.specs.Line.{line_room};
ghost use Rattle.report.specs.Printing.{StoresShort};

use crate::line::{accepted_line, finish, refused_line};
use crate::settle::{settle_formula, settle_proof};
use checker::proof::check_proof;
use checker::verdict::Verdict;
use formula::clear::clear_tail;
use formula::prefix::entry_count;

// The line of a verdict, V and C being the formula's.
fn verdict_line(line: &mut [u8], variables: usize, count: usize, verdict: Verdict) -> usize
    ensures { StoresShort line_room line.old (verdict_line variables count verdict) line.new result }
{
    match verdict {
        Ok(accepted) => { accepted_line(line, variables, count, accepted.steps, accepted.empty.0) }
        Err(r) => refused_line(line, r),
    }
}

// The line for steps that were read: the verdict on them. `count` is C.
fn judged_line<'a>(
    prefix: &[i32],
    clauses: &'a [i32],
    count: usize,
    steps: &'a [i32],
    scratch: &mut [u8],
    offsets: &mut [u32],
    line: &mut [u8],
) -> usize
    ensures { StoresShort line_room line.old (verdict_line (entry_count prefix.now) count (verdict_of plain_rules prefix.now clauses.now steps.now (length scratch.old) (length offsets.old))) line.new result }
{
    let verdict = check_proof(prefix, clauses, steps, scratch, offsets);
    verdict_line(line, entry_count(prefix), count, verdict)
}

// The line for a formula that was read: the proof file is settled, then judged.
fn proof_line(
    proof: &[u8],
    file_bound: usize,
    prefix: &[i32],
    clauses: &[i32],
    count: usize,
    steps: &mut [i32],
    scratch: &mut [u8],
    offsets: &mut [u32],
    line: &mut [u8],
) -> usize
    requires { count ≤ count_bound }
    ensures { StoresShort line_room line.old (steps_line (length scratch.old) (length offsets.old) prefix.now clauses.now count (settled_proof file_bound proof.now count (length steps.old))) line.new result }
{
    match settle_proof(proof, file_bound, count as u32, steps) {
        Err(r) => refused_line(line, r),
        Ok(n) => judged_line(prefix, clauses, count, &steps[..n], scratch, offsets, line),
    }
}

// The line for the two files. The buffers are left as the parts leave them.
fn files_line(
    formula: &[u8],
    proof: &[u8],
    file_bound: usize,
    prefix: &mut [i32],
    clauses: &mut [i32],
    steps: &mut [i32],
    scratch: &mut [u8],
    offsets: &mut [u32],
    line: &mut [u8],
) -> usize
    ensures { StoresShort line_room line.old (check_line (lent file_bound prefix.old clauses.old steps.old scratch.old offsets.old) formula.now proof.now) line.new result }
{
    match settle_formula(formula, file_bound, prefix, clauses) {
        Err(r) => refused_line(line, r),
        Ok(filled) => proof_line(
            proof,
            file_bound,
            &prefix[..filled.prefix_used],
            &clauses[..filled.clauses_used],
            filled.clauses,
            steps,
            scratch,
            offsets,
            line,
        ),
    }
}

// Prints the line of the first program, whose files have at most `file_bound` bytes, and answers its length, 0 where it does
// not fit. Every other buffer ends as 0.
pub fn check_line(
    formula: &[u8],
    proof: &[u8],
    file_bound: usize,
    prefix: &mut [i32],
    clauses: &mut [i32],
    steps: &mut [i32],
    scratch: &mut [u8],
    offsets: &mut [u32],
    line: &mut [u8],
) -> usize
    ensures { LineChecked (lent file_bound prefix.old clauses.old steps.old scratch.old offsets.old) formula.now proof.now line.old line.new result prefix.new clauses.new steps.new scratch.new offsets.new }
{
    let end = files_line(
        formula, proof, file_bound, prefix, clauses, steps, scratch, offsets, line,
    );
    clear_tail(prefix, 0, 0);
    clear_tail(clauses, 0, 0);
    clear_tail(steps, 0, 0);
    clear_tail(scratch, 0, 0);
    clear_tail(offsets, 0, 0);
    finish(line, end)
}
