// The clauses of a formula's text: literals, each clause closed by 0. A variable's mark is twice the number of the last clause that
// holds it, and 1 more where a set lists it.
ghost use Rattle.std.specs.Prelude.{◌≡◌, ℕ, ◌≤◌, length, get_or, ltb};
ghost use Rattle.qbf.specs.Formula.{Prefix};
ghost use Rattle.formula.specs.Bounds.{variable_bound, count_bound, text_bound};
ghost use Rattle.scanner.specs.Position.Cursor.{PositionIn};
ghost use Rattle.scanner.specs.Token.{Number};
ghost use Rattle.scanner.specs.Token.Scan.{shown};
ghost use Rattle.formula.specs.Refusal.{passes};
ghost use Rattle.formula.specs.Text.{literal_reason};
ghost use Rattle.formula.specs.Text.Sets.{Listed};
ghost use Rattle.formula.specs.Text.Clauses.{LiteralPost, ClosingPost, ClauseTokenPost, clauses_end, ClausesPost};

use crate::bounds::MATRIX_WORDS;
use crate::refusal::{Reason, Refusal};
use crate::word::signed_word;
use scanner::position::Position;
use scanner::token::{Next, Token, next_token};

// What a token of a clause did.
#[derive(Clone, Copy)]
pub enum ClauseStep {
    Literal,
    Closed,
}

// The clause words used, and the text's end.
#[derive(Clone, Copy)]
pub struct MatrixRead {
    pub used: usize,
    pub end: Position,
}

// The mark of any number: beyond the variables it is 0.
fn mark_of(marks: &[usize; 1025], n: usize) -> usize
    ensures { result ≡ get_or marks.now n 0 }
{
    if n < 1025 { marks[n] } else { 0 }
}

// The refusals of a literal, in their order.
fn judge_literal(
    variables: usize,
    n: usize,
    clash: bool,
    used: usize,
    room: usize,
) -> Result<(), Reason>
    ensures { result ≡ passes (literal_reason variables n clash used room) }
{
    if n < 1 {
        return Err(Reason::OutOfRange);
    }
    if variables < n {
        return Err(Reason::OutOfRange);
    }
    if MATRIX_WORDS <= used {
        return Err(Reason::Oversized);
    }
    if clash {
        return Err(Reason::Clash);
    }
    if room <= used {
        return Err(Reason::NoRoom);
    }
    Ok(())
}

// Writes a literal of the variable n and marks it, unless it is refused.
fn put_literal(
    n: usize,
    variables: usize,
    positive: bool,
    clauses: &mut [i32],
    used: usize,
    closed: usize,
    marks: &mut [usize; 1025],
) -> Result<ClauseStep, Reason>
    requires { (variables ≤ variable_bound) × (closed ≤ count_bound) }
    ensures { LiteralPost n variables positive used closed clauses.old marks.old clauses.new marks.new result }
{
    let mark = mark_of(marks, n);
    let room = clauses.len();
    judge_literal(variables, n, mark / 2 == closed + 1, used, room)?;
    clauses[used] = signed_word(positive, n);
    marks[n] = 2 * (closed + 1) + mark % 2;
    Ok(ClauseStep::Literal)
}

// Writes a clause's closing 0: 2 above the bound on clause words, 3 without room.
fn close_clause(clauses: &mut [i32], used: usize) -> Result<ClauseStep, Reason>
    ensures { ClosingPost used clauses.old clauses.new result }
{
    if MATRIX_WORDS <= used {
        return Err(Reason::Oversized);
    }
    if clauses.len() <= used {
        return Err(Reason::NoRoom);
    }
    clauses[used] = 0;
    Ok(ClauseStep::Closed)
}

// A token of a clause, while fewer than C clauses are closed.
fn clause_token(
    token: Token,
    variables: usize,
    clauses: &mut [i32],
    used: usize,
    closed: usize,
    marks: &mut [usize; 1025],
) -> Result<ClauseStep, Reason>
    requires { (variables ≤ variable_bound) × (closed ≤ count_bound) × (used ≤ length clauses.old) }
    ensures { (m : Number) → shown m ≡ token → ClauseTokenPost m variables used closed clauses.old marks.old clauses.new marks.new result }
{
    match token {
        Token::Natural(n) => if n == 0 {
            close_clause(clauses, used)
        } else {
            put_literal(n, variables, true, clauses, used, closed, marks)
        },
        Token::Negative(n) => put_literal(n, variables, false, clauses, used, closed, marks),
        Token::NoNumber => Err(Reason::BadToken),
    }
}

// The text ends: a clause that is open from `start` on, or fewer clauses than C.
fn clauses_end(
    end: Position,
    start: usize,
    used: usize,
    closed: usize,
    count: usize,
) -> Result<MatrixRead, Refusal>
    ensures { result ≡ clauses_end end (ltb start used) (ltb closed count) used }
{
    if start < used {
        return Err(Refusal::in_text(Reason::Unfinished, end));
    }
    if closed < count {
        return Err(Refusal::in_text(Reason::Miscount, end));
    }
    Ok(MatrixRead { used, end })
}

// The clauses, from the position after the sets on.
pub fn read_clauses(
    text: &[u8],
    from: Position,
    variables: usize,
    count: usize,
    clauses: &mut [i32],
    marks: &mut [usize; 1025],
) -> Result<MatrixRead, Refusal>
    requires position_in { PositionIn text.now from × (length text.now ≤ text_bound) }
    requires counts_in_bound { (variables ≤ variable_bound) × (count ≤ count_bound) }
    ensures { (prefixRoom : ℕ) (P : Prefix) → Listed marks.old P → ClausesPost text.now from.place variables count prefixRoom P clauses.old clauses.new marks.new result }
{
    let mut at = from;
    let mut used = 0;
    let mut closed = 0;
    let mut start = 0;
    // From token to token, up to the text's end or a refusal: no `for` counts the place; what is counted are words and clauses.
    loop {
        match next_token(text, at.place, at.line, at.column) {
            Next::End(end) => return clauses_end(end, start, used, closed, count),
            Next::Found { token, place, next } => {
                if count <= closed {
                    return Err(Refusal::in_text(Reason::Miscount, place));
                }
                match clause_token(token, variables, clauses, used, closed, marks) {
                    Err(reason) => return Err(Refusal::in_text(reason, place)),
                    Ok(ClauseStep::Literal) => {
                        used += 1;
                        at = next;
                    }
                    Ok(ClauseStep::Closed) => {
                        used += 1;
                        closed += 1;
                        start = used;
                        at = next;
                    }
                }
            }
        }
    }
}
