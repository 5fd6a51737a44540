// C functions on a proof: its file, and its check.
ghost use Rattle.prooffile.specs.File.{ProofRead};
ghost use Rattle.inference.specs.Rules.{plain_rules, small_rules};
ghost use Rattle.checker.specs.Verdict.{Checked};
ghost use Rattle.checker.specs.Verdict.{Verdict as Answer};
ghost use Rattle.capi.specs.Codes.{Told, Tells, proof_code, verdict_code};

use crate::codes::{accept, refuse};
use checker::proof::{check_proof, check_proof_small};
use checker::verdict::Verdict;
use prooffile::file::read_proof;

// Reads the steps of a proof file for a formula of `clause_count` clauses: `out` is the step words and zeros.
#[unsafe(no_mangle)]
pub extern "C" fn qdr_read_proof(
    file: &[u8],
    clause_count: u32,
    steps: &mut [i32],
    out: &mut [u64; 5],
) -> u32
    ensures { Tells proof_code (ProofRead file.now clause_count steps.old steps.new) result out.new }
{
    match read_proof(file, clause_count, steps) {
        Ok(words) => accept(out, words, 0, 0),
        Err(r) => refuse(out, r),
    }
}

// A verdict: the first empty clause's number and the steps in `out`, or the refusal.
fn tell_verdict(out: &mut [u64; 5], verdict: Verdict) -> u32
    ensures { Told (verdict_code verdict) result out.new }
{
    match verdict {
        Ok(accepted) => accept(out, accepted.empty.0, accepted.steps, 0),
        Err(r) => refuse(out, r),
    }
}

// Checks a proof: `out` is the first empty clause's number, the steps and zeros.
#[unsafe(no_mangle)]
pub extern "C" fn qdr_check<'a>(
    prefix: &[i32],
    clauses: &'a [i32],
    steps: &'a [i32],
    scratch: &mut [u8],
    offsets: &mut [u32],
    out: &mut [u64; 5],
) -> u32
    ensures { Tells verdict_code (λ (a : Answer). Checked plain_rules prefix.now clauses.now steps.now scratch.old offsets.old a scratch.new offsets.new) result out.new }
{
    tell_verdict(out, check_proof(prefix, clauses, steps, scratch, offsets))
}

// The same from 640 bytes of scratch.
#[unsafe(no_mangle)]
pub extern "C" fn qdr_check_small<'a>(
    prefix: &[i32],
    clauses: &'a [i32],
    steps: &'a [i32],
    scratch: &mut [u8],
    offsets: &mut [u32],
    out: &mut [u64; 5],
) -> u32
    ensures { Tells verdict_code (λ (a : Answer). Checked small_rules prefix.now clauses.now steps.now scratch.old offsets.old a scratch.new offsets.new) result out.new }
{
    tell_verdict(
        out,
        check_proof_small(prefix, clauses, steps, scratch, offsets),
    )
}
