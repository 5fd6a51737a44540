// The quantifier sets of a formula's text: `a` or `e`, positive numbers, 0. A mark per variable says whether it is listed. Which quantifier a set has is a flag
// alone, the answer of the test for its letter: a value of two names would be made of it and taken apart at the entry.
ghost use Rattle.std.specs.Prelude.{◌≡◌, ◌≤◌, ◌<◌, [], length};
ghost use Rattle.formula.specs.Bounds.{variable_bound, text_bound};
ghost use Rattle.scanner.specs.Position.Cursor.{PositionIn};
ghost use Rattle.scanner.specs.Token.{Number};
ghost use Rattle.scanner.specs.Token.Scan.{shown};
ghost use Rattle.formula.specs.Prefix.{entries_in, entry_words, quantifier_of};
ghost use Rattle.formula.specs.Text.Sets.{ListingPost, Listed, set_closing, SetTokenPost, SetPost, SetsPost};

use crate::literal::Variable;
use crate::prefix::{entry_fits, put_entry};
use crate::refusal::{Reason, Refusal};
use scanner::position::Position;
use scanner::token::{Next, Token, is_word, next_token};

// What a token of a set did: listed a variable, so many entries standing then, or closed the set.
#[derive(Clone, Copy)]
pub enum SetStep {
    Listed(usize),
    Closed,
}

// The entries so far, and the position from which to go on.
#[derive(Clone, Copy)]
pub struct SetsRead {
    pub entries: usize,
    pub next: Position,
}

// Lists the variable of a number other than 0: 5 above V, 6 where it is marked, 3 where its entry has no room. Blocks are numbered when
// all entries stand, since variables that no set binds come first.
fn list_variable(
    n: usize,
    variables: usize,
    existential: bool,
    prefix: &mut [i32],
    entries: usize,
    marks: &mut [usize; 1025],
) -> Result<SetStep, Reason>
    requires { (0 < n) × (variables ≤ variable_bound) }
    ensures { ListingPost n variables (quantifier_of existential) entries prefix.old marks.old prefix.new marks.new result }
{
    let Some(variable) = Variable::new(n) else {
        return Err(Reason::OutOfRange);
    };
    if variables < n {
        return Err(Reason::OutOfRange);
    }
    if 0 < marks[n] {
        return Err(Reason::BoundTwice);
    }
    if entry_fits(prefix.len(), entries) {
        marks[n] = 1;
        put_entry(prefix, entries, existential, variable, 0);
        return Ok(SetStep::Listed(entries + 1));
    }
    Err(Reason::NoRoom)
}

// A set's closing 0: an empty set is refused.
fn close_set(filled: bool) -> Result<SetStep, Reason>
    ensures { result ≡ set_closing filled }
{
    if filled {
        return Ok(SetStep::Closed);
    }
    Err(Reason::BadToken)
}

// A token of a set, which is `filled` once it lists a variable.
fn set_token(
    token: Token,
    variables: usize,
    existential: bool,
    filled: bool,
    prefix: &mut [i32],
    entries: usize,
    marks: &mut [usize; 1025],
) -> Result<SetStep, Reason>
    requires { (variables ≤ variable_bound) × (entry_words entries ≤ length prefix.old) × Listed marks.old (entries_in prefix.old entries) }
    ensures { (m : Number) → shown m ≡ token → SetTokenPost m variables (quantifier_of existential) filled entries prefix.old marks.old prefix.new marks.new result }
{
    match token {
        Token::Natural(n) => if 0 < n {
            list_variable(n, variables, existential, prefix, entries, marks)
        } else {
            close_set(filled)
        },
        Token::Negative(_) => Err(Reason::BadToken),
        Token::NoNumber => Err(Reason::BadToken),
    }
}

// A set, from the position after its letter on.
fn read_set(
    text: &[u8],
    from: Position,
    variables: usize,
    existential: bool,
    prefix: &mut [i32],
    entries: usize,
    marks: &mut [usize; 1025],
) -> Result<SetsRead, Refusal>
    requires position_in { PositionIn text.now from × (length text.now ≤ text_bound) }
    requires listed { (variables ≤ variable_bound) × (entry_words entries ≤ length prefix.old) × Listed marks.old (entries_in prefix.old entries) }
    ensures { SetPost text.now from.place variables (quantifier_of existential) entries prefix.old prefix.new marks.new result }
{
    let mut at = from;
    let mut n = entries;
    // From token to token, up to the text's end or a refusal: no `for` counts the place.
    loop {
        match next_token(text, at.place, at.line, at.column) {
            Next::End(end) => return Err(Refusal::in_text(Reason::Unfinished, end)),
            Next::Found { token, place, next } => {
                match set_token(token, variables, existential, entries < n, prefix, n, marks) {
                    Err(reason) => return Err(Refusal::in_text(reason, place)),
                    Ok(SetStep::Closed) => return Ok(SetsRead { entries: n, next }),
                    Ok(SetStep::Listed(more)) => {
                        n = more;
                        at = next;
                    }
                }
            }
        }
    }
}

// The sets, from the position after the header on, up to the first token that is neither `a` nor `e`.
pub fn read_sets(
    text: &[u8],
    from: Position,
    variables: usize,
    prefix: &mut [i32],
    marks: &mut [usize; 1025],
) -> Result<SetsRead, Refusal>
    requires position_in { PositionIn text.now from × (length text.now ≤ text_bound) }
    requires listed { (variables ≤ variable_bound) × Listed marks.old [] }
    ensures { SetsPost text.now from.place variables prefix.old prefix.new marks.new result }
{
    let mut at = from;
    let mut entries = 0;
    // From token to token, up to the text's end or a refusal: no `for` counts the place.
    loop {
        match next_token(text, at.place, at.line, at.column) {
            Next::End(_) => return Ok(SetsRead { entries, next: at }),
            Next::Found {
                token: _,
                place,
                next,
            } => {
                let e = is_word(text, place.place, next.place, b"e");
                let a = is_word(text, place.place, next.place, b"a");
                if e | a {
                    let set = read_set(text, next, variables, e, prefix, entries, marks)?;
                    entries = set.entries;
                    at = set.next;
                } else {
                    return Ok(SetsRead { entries, next: at });
                }
            }
        }
    }
}
