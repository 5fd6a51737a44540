// The lines of the programs, written into a lent buffer from its start: `accepted V C steps empty` and
// `refused number word place line column`, with 17 then `variable block`. Each function answers the place behind what it wrote; none asks for room but the last.
// No `Display`: see decimal.rt of `formula`.
ghost use Rattle.std.specs.Prelude.{[], ◌∷◌, ◌++◌, ◌+◌, ◌^◌, ◌<◌, ◌≤◌};
ghost use Rattle.formula.specs.Decimal.{decimal};
ghost use Rattle.formula.specs.Store.{Stores};
ghost use Rattle.formula.specs.Refusal.{numbers};
ghost use Rattle.report.specs.Line.{accepted_line, refused_end, refused_line, line_room};
ghost use Rattle.report.specs.Printing.{Finishes, StoresShort};

use crate::word::write_word;
use formula::clear::keep_used;
use formula::decimal::{put, write_bytes, write_number};
use formula::refusal::{Numbers, Reason, Refusal};

// A number and the byte behind it: a space, or LF at the line's end.
fn write_ended(line: &mut [u8], at: usize, n: usize, end: u8) -> usize
    requires { at + 21 < 2 ^ 64 }
    ensures stores { Stores line.old at (decimal n ++ (end ∷ [])) line.new result }
    ensures upper_bound { result ≤ at + 21 }
{
    let next = write_number(line, at, n);
    put(line, next, end)
}

// The end of a refused line: the column, and behind it what blocks.
fn write_end(line: &mut [u8], at: usize, column: usize, reason: Reason) -> usize
    requires { at + 63 < 2 ^ 64 }
    ensures stores { Stores line.old at (refused_end column (numbers reason)) line.new result }
    ensures upper_bound { result ≤ at + 63 }
{
    match reason.numbers() {
        Numbers::Alone(_) => write_ended(line, at, column, b'\n'),
        Numbers::Blocked(blocker) => {
            let mut next = write_ended(line, at, column, b' ');
            next = write_ended(line, next, blocker.variable.0, b' ');
            write_ended(line, next, blocker.block, b'\n')
        }
    }
}

// The line of a refusal.
pub fn refused_line(line: &mut [u8], refusal: Refusal) -> usize
    ensures { StoresShort line_room line.old (refused_line refusal) line.new result }
{
    let reason = refusal.reason;
    let mut at = write_bytes(line, 0, b"refused ");
    at = write_ended(line, at, reason.number() as usize, b' ');
    at = write_word(line, at, reason);
    at = put(line, at, b' ');
    at = write_ended(line, at, refusal.place, b' ');
    at = write_ended(line, at, refusal.line, b' ');
    write_end(line, at, refusal.column, reason)
}

// The line of an accepted proof; `empty` is the first empty clause's number.
pub fn accepted_line(
    line: &mut [u8],
    variables: usize,
    clauses: usize,
    steps: usize,
    empty: usize,
) -> usize
    ensures { StoresShort line_room line.old (accepted_line variables clauses steps empty) line.new result }
{
    let mut at = write_bytes(line, 0, b"accepted ");
    at = write_ended(line, at, variables, b' ');
    at = write_ended(line, at, clauses, b' ');
    at = write_ended(line, at, steps, b' ');
    write_ended(line, at, empty, b'\n')
}

// The end of a printing: room is asked for here, and what is not used is cleared. Answers the bytes used, 0 where the text
// does not fit, as the C functions answer it.
pub fn finish(line: &mut [u8], used: usize) -> usize
    ensures { Finishes line.old used result line.new }
{
    if keep_used(line, used) {
        return used;
    }
    0
}
