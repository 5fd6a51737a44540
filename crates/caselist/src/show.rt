// How answers are shown: the words of a table, the dependents of a row, refusals; and whether a buffer was left clear, that is wholly 0.
ghost use Rattle.std.specs.Prelude.{◌≡◌, [], Bool, codes, if◌then◌else◌};
ghost use Rattle.caselist.specs.Clear.{TellsClear};

use formula::refusal::{Numbers, Refusal};
use std::fmt;

// The words of a table, a space before each. Past the bound only the lowest and the highest number are told.
#[derive(Clone, Copy)]
pub struct Words<'a>(pub &'a [i32]);

impl fmt::Display for Words<'_> {
    fn fmt<W: fmt::Write>(&self, f: &mut fmt::Formatter<W>) -> fmt::Result {
        for word in self.0 {
            match *word {
                i32::MIN => write!(f, " lowest")?,
                i32::MAX => write!(f, " highest")?,
                -1_024..=1_024 => write!(f, " {word}")?,
                _ => write!(f, " ?")?,
            }
        }
        Ok(())
    }
}

// The dependents of a row, a space before each: the numbers of the variables whose byte is 1, `?` for a byte that is neither 0 nor 1.
#[derive(Clone, Copy)]
pub struct Dependents<'a>(pub &'a [u8]);

impl fmt::Display for Dependents<'_> {
    fn fmt<W: fmt::Write>(&self, f: &mut fmt::Formatter<W>) -> fmt::Result {
        for (variable, byte) in self.0.iter().enumerate() {
            match *byte {
                0 => (),
                1 => write!(f, " {variable}")?,
                _ => write!(f, " ?")?,
            }
        }
        Ok(())
    }
}

// A refusal: its number, its place, its line and its column; behind them, with 17, what blocks, its variable and its block.
#[derive(Clone, Copy)]
pub struct Refused(pub Refusal);

impl fmt::Display for Refused {
    fn fmt<W: fmt::Write>(&self, f: &mut fmt::Formatter<W>) -> fmt::Result {
        let Refusal {
            reason,
            place,
            line,
            column,
        } = self.0;
        let number = reason.number();
        write!(f, "refused {number} {place} {line} {column}")?;
        match reason.numbers() {
            Numbers::Alone(_) => Ok(()),
            Numbers::Blocked(blocker) => {
                let variable = blocker.variable.0;
                let block = blocker.block;
                write!(f, " {variable} {block}")
            }
        }
    }
}

// Is the buffer wholly 0?
pub fn is_clear<T: Copy + Default + PartialEq>(buffer: &[T]) -> bool
    ensures { TellsClear T.is_default T.eq buffer.now result }
{
    let zero = T::default();
    buffer.iter().all(|x| *x == zero)
}

// A text for a buffer that is not wholly 0, nothing for one that is.
pub fn unless_clear<T: Copy + Default + PartialEq>(buffer: &[T], text: &'static str) -> &'static str
    ensures { (clear : Bool) × TellsClear T.is_default T.eq buffer.now clear × (result.now ≡ (if clear then [] else text.now)) }
{
    if is_clear(buffer) { "" } else { text }
}

// How buffers were left.
pub fn clear_or_not(clear: bool) -> &'static str
    ensures { result.now ≡ (if clear then codes "clear" else codes "not clear") }
{
    if clear { "clear" } else { "not clear" }
}
