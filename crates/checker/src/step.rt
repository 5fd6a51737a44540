// The check of one step: it is read, has room, and is judged by its kind.
ghost use Rattle.std.specs.Prelude.{◌≡◌, ◌≤◌, ◌<◌, length, drop};
ghost use Rattle.formula.specs.Decode.{clause_at};
ghost use Rattle.inference.specs.Steps.{read_step, judge, judge_read};
ghost use Rattle.inference.specs.Words.{AllWords, InRange};
ghost use Rattle.inference.specs.Scope.{scope_of};
ghost use Rattle.inference.specs.Numbered.{stored};
ghost use Rattle.inference.specs.Known.{known_in};
ghost use Rattle.inference.specs.Read.{step_of};
ghost use Rattle.checker.specs.Step.{KeptReady, kept_after, JudgedReady, StepChecked};

use crate::reduce::{check_reduction, literal_variable};
use crate::resolve::check_resolution;
use dependency::scratch::SMALL;
use formula::literal::Variable;
use formula::refusal::Reason;
use formula::tables::Tables;
use inference::clause::is_empty;
use inference::numbered::Known;
use inference::read::{Family, StepKind, StepRead, read_step};

// A step that was read, by its kind.
fn judge_step(
    tables: Tables,
    known: Known,
    step: StepRead,
    kept: Option<Variable>,
    scratch: &mut [u8; SMALL],
) -> Result<(), Reason>
    requires { KeptReady tables.prefix.now tables.clauses.now kept scratch.old }
    ensures { JudgedReady tables.entry.prefix.now tables.entry.clauses.now (kept_after step kept) (judge (scope_of tables.entry.prefix.now tables.entry.clauses.now) (known_in known.entry) (step_of step (clause_at known.entry.steps.now step.statement))) result scratch.new }
{
    let kind = step.kind;
    match kind {
        StepKind::Resolution => check_resolution(tables.entries(), known, step, scratch),
        StepKind::Reduction => check_reduction(tables, known, step, kept, scratch),
    }
}

// Of a right step: where the next one begins, the variable whose row stands in the scratch, if one does, and whether its clause is empty.
#[derive(Clone, Copy)]
pub struct StepTaken {
    pub next: usize,
    pub kept: Option<Variable>,
    pub empty: bool,
}

// The variable whose row stands in the scratch after a right step: that of the reduced literal, or the one before a resolution.
fn kept_after(step: StepRead, kept: Option<Variable>) -> Option<Variable>
    ensures { result ≡ kept_after step kept }
{
    let kind = step.kind;
    match kind {
        StepKind::Resolution => kept,
        StepKind::Reduction => literal_variable(step.pivot),
    }
}

// The step whose first word stands at `at`, after `numbered` numbered clauses, the first `inputs` of which are the input's. Whether a step
// may stand here is for the run to say.
pub fn check_step<'a>(
    tables: Tables<'a>,
    steps: &'a [i32],
    offsets: &[u32],
    inputs: usize,
    numbered: usize,
    at: usize,
    family: Family,
    kept: Option<Variable>,
    scratch: &mut [u8; SMALL],
) -> Result<StepTaken, Reason>
    requires kept_ready { KeptReady tables.prefix.now tables.clauses.now kept scratch.old }
    requires at_in_bounds { at < length steps.now }
    requires numbered_in_bounds { numbered ≤ length offsets.now }
    requires known_in_range { AllWords InRange (stored inputs tables.clauses.now steps.now offsets.now numbered) }
    ensures { StepChecked tables.entry.prefix.now tables.entry.clauses.now at kept (judge_read (scope_of tables.entry.prefix.now tables.entry.clauses.now) (length offsets.now) (stored inputs tables.entry.clauses.now steps.now offsets.now numbered) (read_step family (drop at steps.now))) result scratch.new }
{
    let Some(step) = read_step(steps, at, family) else {
        return Err(Reason::BrokenStep);
    };
    if offsets.len() <= numbered {
        return Err(Reason::NoRoom);
    }
    let known = Known {
        clauses: tables.clauses,
        steps,
        offsets,
        inputs,
        count: numbered,
    };
    judge_step(tables, known, step, kept, scratch)?;
    Ok(StepTaken {
        next: step.next,
        kept: kept_after(step, kept),
        empty: is_empty(steps, step.statement),
    })
}
