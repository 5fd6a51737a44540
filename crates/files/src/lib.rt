// Files for the programs: a file read whole into a buffer or not at all, and bytes printed.
#![tactic(auto)]

pub mod reading;

ghost use Rattle.std.specs.Prelude.{IfSome};
ghost use Rattle.std.specs.Counts.{IsPrefixLen};
ghost use Rattle.std.specs.IoError.{error_kind};
ghost use Rattle.files.specs.Calls.{IsNumberOf};

use crate::reading::{EINTR, EIO, Reading, after_read};
use std::fs;
use std::io::{Error, ErrorKind, Read};
use std::rt::Files;
use std::str::from_utf8;

// How often a call of `read` that was interrupted is tried again, in one reading.
const TRIES: usize = 100;

// The error number by which the reading goes on after a call that failed: an interruption's, or another.
fn error_number(error: Error) -> i32
    ensures { IsNumberOf (error_kind error) result }
{
    match error.kind() {
        ErrorKind::Interrupted => EINTR,
        _ => EIO,
    }
}

// One call of `read`: the count that it answered and 0, or -1 and the error number. As C's `read` tells it and no `Result`, since `after_read` takes the two.
fn read_once(file: &mut impl Read, buffer: &mut [u8]) -> (isize, i32) {
    match file.read(buffer) {
        Ok(n) => (n as isize, 0),
        Err(error) => (-1, error_number(error)),
    }
}

// Reads on until the end is seen, the buffer is full or the file is unreadable, and answers how many bytes it has: `None` where
// it is unreadable. `after_read` decides after each call.
fn read_open(file: &mut impl Read, buffer: &mut [u8]) -> Option<usize>
    ensures { IfSome result (λ n. IsPrefixLen n buffer.new) }
{
    let mut at = 0;
    let mut tries = TRIES;
    // No `for`: its bound, the bytes and the tries together, would need an answer behind it that no reading comes to.
    loop {
        let (got, error) = read_once(file, &mut buffer[at..]);
        match after_read(got, error, at, buffer.len(), tries) {
            Reading::On {
                at: next,
                tries: left,
            } => {
                at = next;
                tries = left;
            }
            Reading::Whole(n) => return Some(n),
            Reading::Unreadable => return None,
        }
    }
}

// Reads the file of this name, if it is readable. A path that is not UTF-8 names no file.
fn read_path(rt: &impl Files, path: &[u8], buffer: &mut [u8]) -> Option<usize>
    ensures { IfSome result (λ n. IsPrefixLen n buffer.new) }
{
    let name = from_utf8(path).ok()?;
    let mut file = fs::open(rt, name).ok()?;
    read_open(&mut file, buffer)
}

// Reads the file into the buffer and answers how many bytes it has, at most as many as the buffer; a file that cannot be
// read, at its start or later, is as empty. A caller that has to see a longer file lends one byte more than it takes.
// Past the count the buffer may hold anything.
pub fn read_file(rt: &impl Files, path: &[u8], buffer: &mut [u8]) -> usize
    ensures { IsPrefixLen result buffer.new }
{
    read_path(rt, path, buffer).unwrap_or(0)
}

// Says on standard error that standard output was not written, with the reason.
fn tell_unwritten(rt: &impl Eprint, error: Error) {
    let _ = eprintln!(rt; "standard output: {error}");
}

// Prints the first n bytes of the text, none where it has fewer: n may be what a caller was answered. Where they cannot be written, standard error says so.
pub fn print_first(rt: &(impl Print + Eprint), text: &[u8], n: usize) {
    if n <= text.len() {
        if let Err(error) = rt.write_all(&text[..n]) {
            tell_unwritten(rt, error);
        }
    }
}

// Prints a number. Where it cannot be written, standard error says so.
pub fn print_number(rt: &(impl Print + Eprint), n: usize) {
    if let Err(error) = rt.print(n) {
        tell_unwritten(rt, error);
    }
}
