// Reading a formula's text into the two tables.
ghost use Rattle.std.specs.Prelude.{◌≤◌, [], length};
ghost use Rattle.formula.specs.Bounds.{variable_bound, count_bound, text_bound};
ghost use Rattle.scanner.specs.Position.Cursor.{PositionIn};
ghost use Rattle.formula.specs.Text.{between_sets, reading, reading_from, ReadPost};
ghost use Rattle.formula.specs.Text.Fill.{FillPost};

use crate::bounds::TextLength;
use crate::clauses::read_clauses;
use crate::clear::clear_tail;
use crate::free::complete;
use crate::header::read_header;
use crate::refusal::{Reason, Refusal};
use crate::sets::read_sets;
use scanner::position::Position;

// What reading a text filled: the words used of each table, and C.
#[derive(Clone, Copy, Debug, PartialEq, Eq)]
pub struct Filled {
    pub prefix_used: usize,
    pub clauses_used: usize,
    pub clauses: usize,
}

// The sets and the clauses, from the position after the header on, then the variables that no set binds. Past the used part the tables
// hold anything.
fn fill_tables(
    text: &[u8],
    from: Position,
    variables: usize,
    count: usize,
    prefix: &mut [i32],
    clauses: &mut [i32],
) -> Result<Filled, Refusal>
    requires position_in { PositionIn text.now from × (length text.now ≤ text_bound) }
    requires counts_in_bound { (variables ≤ variable_bound) × (count ≤ count_bound) }
    ensures { FillPost (reading_from (length prefix.old) (length clauses.old) text.now (between_sets variables count []) from.place) prefix.new clauses.new result }
{
    let mut marks = [0usize; 1025];
    let sets = read_sets(text, from, variables, prefix, &mut marks)?;
    let read = read_clauses(text, sets.next, variables, count, clauses, &mut marks)?;
    match complete(prefix, sets.entries, variables, &marks) {
        None => Err(Refusal::in_text(Reason::NoRoom, read.end)),
        Some(total) => Ok(Filled {
            prefix_used: total,
            clauses_used: read.used,
            clauses: count,
        }),
    }
}

// The text's length, its header, then the rest.
fn fill(text: &[u8], prefix: &mut [i32], clauses: &mut [i32]) -> Result<Filled, Refusal>
    ensures { FillPost (reading text.now (length prefix.old) (length clauses.old)) prefix.new clauses.new result }
{
    let Some(_) = TextLength::new(text.len()) else {
        return Err(Refusal::new(Reason::Oversized, 0));
    };
    let header = read_header(text)?;
    fill_tables(
        text,
        header.next,
        header.variables.0,
        header.clauses.0,
        prefix,
        clauses,
    )
}

// Reads the text. The tables hold the words read, then zeros; after a refusal zeros only. One pass over the text.
pub fn read_formula(text: &[u8], prefix: &mut [i32], clauses: &mut [i32]) -> Result<Filled, Refusal>
    ensures { ReadPost text.now prefix.old clauses.old prefix.new clauses.new result }
{
    let answer = fill(text, prefix, clauses);
    match answer {
        Err(_) => {
            clear_tail(prefix, 0, 0);
            clear_tail(clauses, 0, 0);
        }
        Ok(filled) => {
            clear_tail(prefix, filled.prefix_used, 0);
            clear_tail(clauses, filled.clauses_used, 0);
        }
    }
    answer
}
