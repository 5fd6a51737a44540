// Kinds 1 and 3: a resolution. Each check costs a few passes over the two clauses and the statement, and one over the prefix where a long-distance one
// meets opposite literals.
ghost use Rattle.std.specs.Prelude.{◌≤◌, pos};
ghost use Rattle.formula.specs.Decode.{clause_at};
ghost use Rattle.inference.specs.Steps.{antecedent};
ghost use Rattle.inference.specs.Clause.{words_of};
ghost use Rattle.inference.specs.Known.{known_in};
ghost use Rattle.formula.specs.Held.{prefix_in};
ghost use Rattle.inference.specs.Scope.{mergeable_in};
ghost use Rattle.inference.specs.Existentials.{existential_of};
ghost use Rattle.checker.specs.Step.{existentials_in, Clean, pivot_reason, resolving_reason, resolution_reason, Answers};
ghost use Rattle.formula.specs.Word.{word_of};

use crate::merge::antecedents_cross;
use dependency::scratch::{LATER, SMALL};
use formula::literal::Variable;
use formula::prefix::Prefix;
use formula::refusal::Reason;
use inference::clause::{ClauseAt, has_word};
use inference::existentials::{EXISTENTIALS_END, FLAG_BYTES, existential_of};
use inference::marks::MARK_BYTES;
use inference::numbered::Known;
use inference::read::StepRead;
use inference::result::judge_resolvent;

// Both clauses hold their literal of the pivot, then the result is judged.
fn resolve_on(
    prefix: Prefix,
    left: ClauseAt,
    right: ClauseAt,
    pivot: Variable,
    steps: &[i32],
    step: StepRead,
    scratch: &mut [u8; SMALL],
) -> Result<(), Reason>
    requires scratch_clean { Clean scratch.old }
    requires pivot_in_range { pivot.0 ≤ 1024 }
    ensures { Answers (pivot_reason step.family (mergeable_in (prefix_in prefix.entry) pivot.0) (pos pivot.0) (words_of left.entry) (words_of right.entry) (clause_at steps.now step.statement)) result scratch.old scratch.new }
{
    let literal = pivot.literal();
    let e = literal.0;
    if has_word(left.words, left.from, e) {
        let opposite = literal.negated();
        let f = opposite.0;
        if has_word(right.words, right.from, f) {
            let crossed = antecedents_cross(step.family, prefix, left, right, pivot, scratch);
            let marks = scratch.first_chunk_mut::<MARK_BYTES>().unwrap();
            return judge_resolvent(
                left,
                right,
                pivot,
                step.family,
                crossed,
                steps,
                step.statement,
                marks,
            );
        }
        return Err(Reason::WrongPivot);
    }
    Err(Reason::WrongPivot)
}

// The pivot's word is a positive existential literal.
fn resolve_fields(
    prefix: Prefix,
    left: ClauseAt,
    right: ClauseAt,
    steps: &[i32],
    step: StepRead,
    scratch: &mut [u8; SMALL],
) -> Result<(), Reason>
    requires { Clean scratch.old }
    ensures { Answers (resolving_reason step.family (mergeable_in (prefix_in prefix.entry)) (existential_of (existentials_in scratch.old) (word_of step.pivot)) (words_of left.entry) (words_of right.entry) (clause_at steps.now step.statement)) result scratch.old scratch.new }
{
    let existentials = scratch[LATER..EXISTENTIALS_END]
        .as_array::<FLAG_BYTES>()
        .unwrap();
    let Some(pivot) = existential_of(step.pivot, existentials) else {
        return Err(Reason::WrongPivot);
    };
    resolve_on(prefix, left, right, pivot, steps, step, scratch)
}

// A resolution after the numbered clauses.
pub fn check_resolution(
    prefix: Prefix,
    known: Known,
    step: StepRead,
    scratch: &mut [u8; SMALL],
) -> Result<(), Reason>
    requires { Clean scratch.old }
    ensures { Answers (resolution_reason step.family (mergeable_in (prefix_in prefix.entry)) (existentials_in scratch.old) step.pivot (clause_at known.entry.steps.now step.statement) (antecedent (known_in known.entry) step.first) (antecedent (known_in known.entry) step.second)) result scratch.old scratch.new }
{
    let Some(left) = known.find(step.first) else {
        return Err(Reason::NotEarlier);
    };
    let Some(right) = known.find(step.second) else {
        return Err(Reason::NotEarlier);
    };
    resolve_fields(prefix, left, right, known.steps, step, scratch)
}
