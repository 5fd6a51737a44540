// Kinds 2 and 4: a reduction. Each check costs a few passes over the prefix, the clause and the statement, and the row of its variable, unless that
// is the row that stands in the scratch. `kept` is the variable whose row stands there, if one does.
ghost use Rattle.std.specs.Prelude.{◌≡◌, true, nat_abs, Some};
ghost use Rattle.std.proofs.Math.Option.{some};
ghost use Rattle.formula.specs.Bounds.{variable_fit};
ghost use Rattle.qbf.specs.Formula.{universal};
ghost use Rattle.formula.specs.Prefix.{quantifies};
ghost use Rattle.formula.specs.Held.{prefix_in};
ghost use Rattle.formula.specs.Decode.{clause_at};
ghost use Rattle.inference.specs.Steps.{antecedent, judge_reduction};
ghost use Rattle.inference.specs.Clause.{words_of};
ghost use Rattle.inference.specs.Words.{InRange};
ghost use Rattle.inference.specs.Scope.{scope_of};
ghost use Rattle.inference.specs.Known.{known_in};
ghost use Rattle.checker.specs.Step.{literal_variable, KeptReady, RowReady, free_reason, JudgedReady};

use dependency::answer::is_universal;
use dependency::row::make_row;
use dependency::scratch::{LATER, SMALL};
use dependency::universal::Universal;
use formula::literal::{Literal, Variable};
use formula::prefix::Prefix;
use formula::refusal::Reason;
use formula::tables::Tables;
use formula::word::Word;
use inference::blocked::{find_blocker, row_touches};
use inference::clause::{ClauseAt, has_word};
use inference::existentials::{EXISTENTIALS_END, fill_quantified};
use inference::marks::MARK_BYTES;
use inference::numbered::Known;
use inference::read::StepRead;
use inference::result::judge_reduct;

// The variable of a word, if it is a literal.
pub fn literal_variable(word: i32) -> Option<Variable>
    ensures { result ≡ literal_variable word }
{
    Variable::new(Word::variable(word))
}

// The variable of a literal, if it is a universal.
fn universal_of(prefix: Prefix, literal: Literal) -> Option<Variable>
    ensures { result ≡ variable_fit (quantifies universal (prefix_in prefix.entry) (nat_abs literal.0)) (nat_abs literal.0) }
{
    let variable = literal_variable(literal.0)?;
    if is_universal(prefix, variable) {
        return Some(variable);
    }
    None
}

// The row of a universal stands in the scratch: it is there if it was made last, and else it is made, and the existentials, which
// making it cleared, are filled in.
fn row_for(universal: Universal, kept: Option<Variable>, scratch: &mut [u8; SMALL])
    requires { KeptReady universal.tables.prefix.now universal.tables.clauses.now kept scratch.old }
    ensures { RowReady universal.entry.tables.prefix.now universal.entry.tables.clauses.now universal.entry.variable.0 scratch.new }
{
    if kept == Some(universal.variable) {
        return;
    }
    make_row(universal, scratch);
    fill_quantified(
        universal.tables.entries(),
        0,
        true,
        &mut scratch[LATER..EXISTENTIALS_END],
    );
}

// No variable of the clause depends on the reduced one, by its row, and else which one blocks; then the result is judged.
fn reduce_on(
    universal: Universal,
    clause: ClauseAt,
    literal: Literal,
    steps: &[i32],
    step: StepRead,
    kept: Option<Variable>,
    scratch: &mut [u8; SMALL],
) -> Result<(), Reason>
    requires kept_ready { KeptReady universal.tables.prefix.now universal.tables.clauses.now kept scratch.old }
    requires literal_in_range { InRange literal.0 }
    ensures { JudgedReady universal.entry.tables.prefix.now universal.entry.tables.clauses.now (Some universal.entry.variable) (free_reason step.family (scope_of universal.entry.tables.prefix.now universal.entry.tables.clauses.now) universal.entry.variable.0 literal.0 (words_of clause.entry) (clause_at steps.now step.statement)) result scratch.new }
{
    row_for(universal, kept, scratch);
    if row_touches(clause.words, clause.from, scratch) {
        let entries = universal.tables.entries();
        let blocker = find_blocker(entries, clause.words, clause.from, scratch);
        return Err(Reason::Blocked(blocker));
    }
    let marks = scratch.first_chunk_mut::<MARK_BYTES>().unwrap();
    judge_reduct(clause, literal, step.family, steps, step.statement, marks)
}

// The reduced literal is a universal one of the clause.
fn reduce_literal(
    tables: Tables,
    clause: ClauseAt,
    literal: Literal,
    steps: &[i32],
    step: StepRead,
    kept: Option<Variable>,
    scratch: &mut [u8; SMALL],
) -> Result<(), Reason>
    requires { KeptReady tables.prefix.now tables.clauses.now kept scratch.old }
    ensures { JudgedReady tables.entry.prefix.now tables.entry.clauses.now (literal_variable literal.0) (judge_reduction step.family (scope_of tables.entry.prefix.now tables.entry.clauses.now) literal.0 (clause_at steps.now step.statement) (some (words_of clause.entry))) result scratch.new }
{
    let Some(variable) = universal_of(tables.entries(), literal) else {
        return Err(Reason::WrongPivot);
    };
    if has_word(clause.words, clause.from, literal.0) {
        let universal = Universal { tables, variable };
        return reduce_on(universal, clause, literal, steps, step, kept, scratch);
    }
    Err(Reason::WrongPivot)
}

// The reduced word is a literal.
fn reduce_fields(
    tables: Tables,
    clause: ClauseAt,
    steps: &[i32],
    step: StepRead,
    kept: Option<Variable>,
    scratch: &mut [u8; SMALL],
) -> Result<(), Reason>
    requires { KeptReady tables.prefix.now tables.clauses.now kept scratch.old }
    ensures { JudgedReady tables.entry.prefix.now tables.entry.clauses.now (literal_variable step.pivot) (judge_reduction step.family (scope_of tables.entry.prefix.now tables.entry.clauses.now) step.pivot (clause_at steps.now step.statement) (some (words_of clause.entry))) result scratch.new }
{
    let Some(literal) = Literal::new(step.pivot) else {
        return Err(Reason::WrongPivot);
    };
    reduce_literal(tables, clause, literal, steps, step, kept, scratch)
}

// A reduction after the numbered clauses.
pub fn check_reduction(
    tables: Tables,
    known: Known,
    step: StepRead,
    kept: Option<Variable>,
    scratch: &mut [u8; SMALL],
) -> Result<(), Reason>
    requires { KeptReady tables.prefix.now tables.clauses.now kept scratch.old }
    ensures { JudgedReady tables.entry.prefix.now tables.entry.clauses.now (literal_variable step.pivot) (judge_reduction step.family (scope_of tables.entry.prefix.now tables.entry.clauses.now) step.pivot (clause_at known.entry.steps.now step.statement) (antecedent (known_in known.entry) step.first)) result scratch.new }
{
    let Some(clause) = known.find(step.first) else {
        return Err(Reason::NotEarlier);
    };
    reduce_fields(tables, clause, known.steps, step, kept, scratch)
}
