// The header of a formula's text: `p cnf V C`, the two numbers without minus and within their bounds.
ghost use Rattle.std.specs.Prelude.{◌≡◌, ◌-◌, ◌≤◌, length, take, drop};
ghost use Rattle.formula.specs.Bounds.{variable_bound, text_bound};
ghost use Rattle.scanner.specs.Position.Cursor.{PositionIn};
ghost use Rattle.scanner.specs.Token.{first_token, tokens_at};
ghost use Rattle.formula.specs.Text.{wantsP, wantsV, wants_c};
ghost use Rattle.formula.specs.Text.Header.{word_value, number_value, value_of, field_found, HeaderPost};

use crate::bounds::{ClauseCount, VariableCount};
use crate::refusal::{Reason, Refusal};
use scanner::position::Position;
use scanner::token::{Next, Token, first_token, is_word, next_token};

// What the header wants next: `p`, `cnf`, or a number without minus.
#[derive(Clone, Copy)]
pub enum Wanted {
    P,
    Cnf,
    Number,
}

// What was wanted: its value, 0 for a word, and the position after it.
#[derive(Clone, Copy)]
pub struct Field {
    pub value: usize,
    pub next: Position,
}

// V and C, and the position after them.
#[derive(Clone, Copy)]
pub struct Header {
    pub variables: VariableCount,
    pub clauses: ClauseCount,
    pub next: Position,
}

// A word that was wanted has the value 0.
fn word_value(is: bool) -> Option<usize>
    ensures { result ≡ word_value is }
{
    if is { Some(0) } else { None }
}

// The value of a number without minus.
fn number_value(token: Token) -> Option<usize>
    ensures { result ≡ number_value token }
{
    match token {
        Token::Natural(n) => Some(n),
        Token::Negative(_) => None,
        Token::NoNumber => None,
    }
}

// The value of a token, from the byte `from` up to `to`, if it is what the header wants.
fn field_value(text: &[u8], token: Token, from: usize, to: usize, wanted: Wanted) -> Option<usize>
    requires { (from ≤ to) × (to ≤ length text.now) }
    ensures { result ≡ value_of wanted (take (to - from) (drop from text.now)) token }
{
    match wanted {
        Wanted::P => word_value(is_word(text, from, to, b"p")),
        Wanted::Cnf => word_value(is_word(text, from, to, b"cnf")),
        Wanted::Number => number_value(token),
    }
}

// The next token, if it is what the header wants there; a number may be however large.
fn header_field(text: &[u8], at: Position, wanted: Wanted) -> Result<Field, Refusal>
    requires { PositionIn text.now at × (length text.now ≤ text_bound) }
    ensures { result ≡ field_found text.now wanted (tokens_at text.now at.place) }
{
    match next_token(text, at.place, at.line, at.column) {
        Next::End(end) => Err(Refusal::in_text(Reason::Headless, end)),
        Next::Found { token, place, next } => {
            match field_value(text, token, place.place, next.place, wanted) {
                Some(value) => Ok(Field { value, next }),
                None => Err(Refusal::in_text(Reason::Headless, place)),
            }
        }
    }
}

// C, from the position after V on.
fn header_clauses(text: &[u8], at: Position, variables: VariableCount) -> Result<Header, Refusal>
    requires { PositionIn text.now at × (length text.now ≤ text_bound) × (variables.0 ≤ variable_bound) }
    ensures { HeaderPost text.now (wants_c variables.0) at.place result }
{
    let field = header_field(text, at, Wanted::Number)?;
    let Some(clauses) = ClauseCount::new(field.value) else {
        return Err(Refusal::new(Reason::Oversized, 0));
    };
    Ok(Header {
        variables,
        clauses,
        next: field.next,
    })
}

// V and C, from the position after `cnf` on.
fn header_numbers(text: &[u8], at: Position) -> Result<Header, Refusal>
    requires { PositionIn text.now at × (length text.now ≤ text_bound) }
    ensures { HeaderPost text.now wantsV at.place result }
{
    let field = header_field(text, at, Wanted::Number)?;
    let Some(variables) = VariableCount::new(field.value) else {
        return Err(Refusal::new(Reason::Oversized, 0));
    };
    header_clauses(text, field.next, variables)
}

// The header, from the text's first token on.
pub fn read_header(text: &[u8]) -> Result<Header, Refusal>
    requires { length text.now ≤ text_bound }
    ensures { HeaderPost text.now wantsP (first_token text.now) result }
{
    let p = header_field(text, first_token(text), Wanted::P)?;
    let cnf = header_field(text, p.next, Wanted::Cnf)?;
    header_numbers(text, cnf.next)
}
