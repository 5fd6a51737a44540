// Tokens of a formula's text: where the first one starts, what the next one is, its position and where to look for the one after.
ghost use Rattle.std.specs.Prelude.{◌≡◌, false, ◌+◌, ◌-◌, ◌^◌, ◌≤◌, ◌<◌, length, get_or, take, drop, eqb};
ghost use Rattle.scanner.specs.Position.{text_bound, line_feed};
ghost use Rattle.scanner.specs.Position.Cursor.{position, PositionIn};
ghost use Rattle.scanner.specs.Token.{line_step, is_blank, is_digit, lead_step, first_token, same, tokens_at};
ghost use Rattle.scanner.specs.Token.Scan.{numeral, next_of, more_digits, DigitsRead, SkipPost};

use crate::position::Position;

// The value of a number above every bound: one more than the largest 32-bit word.
const TOO_LARGE: usize = 2_147_483_648;

// Where the bytes before the first token stand: at a line's start, further in a line, in a comment; or they are over.
#[derive(Clone, Copy)]
pub enum Lead {
    LineStart,
    InLine,
    Comment,
    Over,
}

// A number without minus, a number with one, or any other run of bytes.
#[derive(Clone, Copy)]
pub enum Token {
    Natural(usize),
    Negative(usize),
    NoNumber,
}

// What is found from a position on: nothing more, up to the end; or a token with its position and the one from which to go on.
#[derive(Clone, Copy)]
pub enum Next {
    End(Position),
    Found {
        token: Token,
        place: Position,
        next: Position,
    },
}

// Of a run of bytes up to a blank or the end: its value, if it is digits alone, of which a first 0 stands alone; and where it ends.
#[derive(Clone, Copy)]
pub struct Digits {
    pub value: Option<usize>,
    pub end: usize,
}

// Space, tab, CR, LF.
fn is_blank(b: u8) -> bool
    ensures { result ≡ is_blank b }
{
    (b == b' ') | (b == b'\t') | (b == b'\r') | (b == b'\n')
}

// `0` to `9`.
fn is_digit(b: u8) -> bool
    ensures { result ≡ is_digit b }
{
    (b'0' <= b) & (b <= b'9')
}

// Where a byte outside a comment leads; `comment` says whether one begins there.
fn line_step(b: u8, comment: bool) -> Lead
    ensures { result ≡ line_step (eqb b line_feed) (is_blank b) comment }
{
    if b == b'\n' {
        return Lead::LineStart;
    }
    if is_blank(b) {
        return Lead::InLine;
    }
    if comment { Lead::Comment } else { Lead::Over }
}

// Where the bytes before the first token stand after one more.
fn lead_step(lead: Lead, b: u8) -> Lead
    ensures { result ≡ lead_step lead b }
{
    match lead {
        Lead::LineStart => line_step(b, b == b'c'),
        Lead::InLine => line_step(b, false),
        Lead::Comment => if b == b'\n' {
            Lead::LineStart
        } else {
            Lead::Comment
        },
        Lead::Over => Lead::Over,
    }
}

// The position of the first token; the end where there is none. Comments end before it.
pub fn first_token(text: &[u8]) -> Position
    requires { length text.now ≤ text_bound }
    ensures { (result.place ≡ first_token text.now) × PositionIn text.now result }
{
    let mut lead = Lead::LineStart;
    let mut at = Position::start();
    for b in text {
        lead = lead_step(lead, *b);
        if let Lead::Over = lead {
            return at;
        }
        at = at.past(*b);
    }
    at
}

// A number with one more digit, never wrapped.
fn numeral(n: usize, b: u8) -> usize
    requires { 48 ≤ b }
    ensures { result ≡ numeral n b }
{
    if 214_748_364 < n {
        return TOO_LARGE;
    }
    let m = 10 * n + ((b - b'0') as usize);
    if m < TOO_LARGE { m } else { TOO_LARGE }
}

// What was read with one more byte, the first of the run or not.
fn more_digits(read: Digits, first: bool, b: u8) -> Digits
    requires { read.end + 1 < 2 ^ 64 }
    ensures { result ≡ more_digits read first b }
{
    let value = match read.value {
        Some(n) if is_digit(b) & (first | (0 < n)) => Some(numeral(n, b)),
        _ => None,
    };
    Digits {
        value,
        end: read.end + 1,
    }
}

// The digits of the run of bytes that begins at `from`.
fn read_digits(text: &[u8], from: usize) -> Digits
    requires { (from ≤ length text.now) × (length text.now ≤ text_bound) }
    ensures { DigitsRead text.now from result }
{
    let mut read = Digits {
        value: Some(0),
        end: from,
    };
    // A `for` over the rest of the text makes a scan of short tokens 1.4 times as long.
    while read.end < text.len() {
        let i = read.end;
        let b = text[i];
        if is_blank(b) {
            return read;
        }
        read = more_digits(read, i == from, b);
    }
    read
}

// The token that begins at a position.
fn token_at(text: &[u8], place: Position) -> Next
    requires { PositionIn text.now place × (length text.now ≤ text_bound) × (place.place < length text.now) × (is_blank (get_or text.now place.place 0) ≡ false) }
    ensures { result ≡ next_of text.now (tokens_at text.now place.place) }
{
    let start = place.place;
    let minus = text[start] == b'-';
    // One call, from the place chosen first, makes a scan of short tokens 1.2 times as long.
    let read = if minus {
        read_digits(text, start + 1)
    } else {
        read_digits(text, start)
    };
    let next = place.along(read.end - start);
    let token = match read.value {
        Some(n) if !minus => Token::Natural(n),
        Some(n) if 0 < n => Token::Negative(n),
        _ => Token::NoNumber,
    };
    Next::Found { token, place, next }
}

// The next byte that is no blank, or the end.
fn skip_blanks(text: &[u8], from: Position) -> Position
    requires { PositionIn text.now from × (length text.now ≤ text_bound) }
    ensures { SkipPost text.now from.place result }
{
    let mut at = from;
    // A `for` over the rest of the text makes a scan of short tokens 1.2 times as long.
    while at.place < text.len() {
        let i = at.place;
        let b = text[i];
        if is_blank(b) {
            at = at.past(b);
        } else {
            return at;
        }
    }
    at
}

// The first token from a position on, with its own and the one from which to go on. The position is handed over in parts, which stay in
// registers from token to token. Text and position are no struct of the callers: what is found and what is refused holds a position alone, so that one would be
// put together and taken apart at each token.
pub fn next_token(text: &[u8], place: usize, line: usize, column: usize) -> Next
    requires { PositionIn text.now (position «place» «line» «column») × (length text.now ≤ text_bound) }
    ensures { result ≡ next_of text.now (tokens_at text.now «place») }
{
    let at = Position {
        place,
        line,
        column,
    };
    let found = skip_blanks(text, at);
    if found.place < text.len() {
        token_at(text, found)
    } else {
        Next::End(found)
    }
}

// Whether the bytes between two places are a word.
pub fn is_word(text: &[u8], from: usize, to: usize, word: &[u8]) -> bool
    requires { (from ≤ to) × (to ≤ length text.now) }
    ensures { result ≡ same (take (to - from) (drop from text.now)) word.now }
{
    &text[from..to] == word
}
