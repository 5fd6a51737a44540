// The result of a step and its statement: marks of the result, ticks of what is stated, and the judgement. A step costs time
// linear in its clauses and its statement.
ghost use Rattle.std.specs.Prelude.{◌≡◌, ◌≤◌, pos, neg_ℤ};
ghost use Rattle.inference.specs.Steps.{resolvent, reduct, judge_statement};
ghost use Rattle.formula.specs.Decode.{clause_at};
ghost use Rattle.inference.specs.Marks.{marks_in, clean, ticks, tick_all, any_marked, Marked};
ghost use Rattle.inference.specs.Clause.{words_of};
ghost use Rattle.inference.specs.Words.{InRange};
ghost use Rattle.inference.specs.Result.{decided, JudgedClean, unresolvable_in, result_reason, unmarked_in};

use crate::clause::ClauseAt;
use crate::marks::{MARK_BYTES, mark_clause, tick, unmark, wipe};
use crate::read::Family;
use formula::literal::{Literal, Variable};
use formula::refusal::Reason;

// Opposite literals that the rule does not allow come ahead of a wrong statement.
fn decide(opposed: bool, ticked: bool, unstated: bool) -> Result<(), Reason>
    ensures { result ≡ decided opposed ticked unstated }
{
    if opposed {
        return Err(Reason::Tautology);
    }
    if unstated {
        return Err(Reason::Misstated);
    }
    if ticked {
        Ok(())
    } else {
        Err(Reason::Misstated)
    }
}

// The marked result against the statement at `statement`: what is stated is ticked off, and all marks are wiped. `opposed` tells of opposite literals
// that the rule does not allow.
fn judge_marked(
    opposed: bool,
    steps: &[i32],
    statement: usize,
    marks: &mut [u8; MARK_BYTES],
) -> Result<(), Reason>
    ensures answer { result ≡ decided opposed (ticks (marks_in marks.old) (clause_at steps.now statement)) (any_marked (tick_all (marks_in marks.old) (clause_at steps.now statement))) }
    ensures wiped { marks_in marks.new ≡ clean }
{
    let ticked = tick(steps, statement, marks);
    let unstated = wipe(marks);
    decide(opposed, ticked, unstated)
}

// Marks both clauses but for the pivot's literals; tells whether a literal met its opposite.
fn mark_both(left: ClauseAt, right: ClauseAt, pivot: Variable, marks: &mut [u8; MARK_BYTES]) -> bool
    requires { pivot.0 ≤ 1024 }
    ensures { Marked (marks_in marks.old) (resolvent (pos pivot.0) (words_of left.entry) (words_of right.entry)) result (marks_in marks.new) }
{
    let literal = pivot.literal();
    let e = literal.0;
    let opposite = literal.negated();
    let f = opposite.0;
    let first = mark_clause(left, e, marks);
    let second = mark_clause(right, f, marks);
    first | second
}

// Takes away the mark of the opposite literal, long-distance.
fn unmark_opposite(literal: Literal, family: Family, marks: &mut [u8; MARK_BYTES])
    requires { InRange literal.0 }
    ensures { marks_in marks.new ≡ unmarked_in family (neg_ℤ literal.0) (marks_in marks.old) }
{
    match family {
        Family::Ordinary => {}
        Family::LongDistance => {
            let opposite = literal.negated();
            unmark(opposite.0, marks);
        }
    }
}

// The result of a resolution against the statement at `statement`. Long-distance, opposite literals of the antecedents were looked for before: `crossed` tells.
pub fn judge_resolvent(
    left: ClauseAt,
    right: ClauseAt,
    pivot: Variable,
    family: Family,
    crossed: bool,
    steps: &[i32],
    statement: usize,
    marks: &mut [u8; MARK_BYTES],
) -> Result<(), Reason>
    requires marks_clean { marks_in marks.old ≡ clean }
    requires pivot_in_range { pivot.0 ≤ 1024 }
    ensures { JudgedClean (result_reason (unresolvable_in family crossed (resolvent (pos pivot.0) (words_of left.entry) (words_of right.entry))) (resolvent (pos pivot.0) (words_of left.entry) (words_of right.entry)) (clause_at steps.now statement)) result (marks_in marks.new) }
{
    let opposed = mark_both(left, right, pivot, marks);
    let unresolvable = match family {
        Family::Ordinary => opposed,
        Family::LongDistance => crossed,
    };
    judge_marked(unresolvable, steps, statement, marks)
}

// The result of a reduction against the statement at `statement`: long-distance, without both signs of the variable.
pub fn judge_reduct(
    clause: ClauseAt,
    literal: Literal,
    family: Family,
    steps: &[i32],
    statement: usize,
    marks: &mut [u8; MARK_BYTES],
) -> Result<(), Reason>
    requires marks_clean { marks_in marks.old ≡ clean }
    requires literal_in_range { InRange literal.0 }
    ensures { JudgedClean (judge_statement (reduct family literal.0 (words_of clause.entry)) (clause_at steps.now statement)) result (marks_in marks.new) }
{
    let a = literal.0;
    mark_clause(clause, a, marks);
    unmark_opposite(literal, family, marks);
    judge_marked(false, steps, statement, marks)
}
