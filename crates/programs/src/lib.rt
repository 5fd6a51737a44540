// 01's two programs on the paths of their files: read, settle, print. What is printed is `report::program`'s; here are opening,
// reading and writing alone. Each buffer is proved long enough: for a file one byte more than is taken, so that a longer one is seen
// as such, and for what is printed all that can be.
#![tactic(auto)]

ghost use Rattle.std.specs.Prelude.{◌<◌, ◌≤◌, length};
ghost use Rattle.report.specs.Check.{check_line};
ghost use Rattle.report.specs.Dependents.{dependency_text, text_room};
ghost use Rattle.report.specs.Line.{file_bound, line_room};
ghost use Rattle.report.specs.Program.{program_room, Whole};

use files::{print_first, read_file};
use report::program::{formula_is_read, program_line, program_text};
use std::rt::Files;

// The bytes of the file, read into a buffer in which a file that is too long is seen to be so.
fn read_taken<'a>(rt: &impl Files, path: &[u8], buffer: &'a mut [u8]) -> &'a [u8]
    requires { file_bound < length buffer.old }
    ensures { length result.now ≤ length buffer.old }
{
    let n = read_file(rt, path, buffer);
    &buffer[..n]
}

// The first program's line, whole. Answers its length, as the entry does: `Whole` speaks of the buffer too, so a slice would be no plainer.
fn whole_line(formula: &[u8], proof: &[u8], line: &mut [u8]) -> usize
    requires { line_room ≤ length line.old }
    ensures { Whole (check_line program_room formula.now proof.now) (length line.old) result line.new }
{
    program_line(formula, proof, line)
}

// Prints the first program's line.
fn print_line(rt: &(impl Print + Eprint), formula: &[u8], proof: &[u8]) {
    let mut line = [0u8; 160];
    let n = whole_line(formula, proof, &mut line);
    print_first(rt, &line, n);
}

// The line for a formula that is read: now the proof file is opened.
fn check_read(rt: &(impl Files + Print + Eprint), formula: &[u8], proof_path: &[u8]) {
    let mut proof = [0u8; 65_537];
    let proof = read_taken(rt, proof_path, &mut proof);
    print_line(rt, formula, proof);
}

// The first program: prints the line for the two files. Where the formula is refused the line is the same whatever the proof, so none is
// looked at.
pub fn check_files(rt: &(impl Files + Print + Eprint), formula_path: &[u8], proof_path: &[u8]) {
    let mut formula = [0u8; 65_537];
    let formula = read_taken(rt, formula_path, &mut formula);
    if formula_is_read(formula) {
        check_read(rt, formula, proof_path);
    } else {
        print_line(rt, formula, b"");
    }
}

// The second program's text, whole. Answers its length, for the same reason.
fn whole_text(formula: &[u8], text: &mut [u8]) -> usize
    requires { text_room ≤ length text.old }
    ensures { Whole (dependency_text program_room formula.now) (length text.old) result text.new }
{
    program_text(formula, text)
}

// Prints the second program's text.
fn print_text(rt: &(impl Print + Eprint), formula: &[u8]) {
    let mut text = [0u8; 1_316_864];
    let n = whole_text(formula, &mut text);
    print_first(rt, &text, n);
}

// The second program: prints a line for each universal of the formula, or the refused line.
pub fn dependency_file(rt: &(impl Files + Print + Eprint), formula_path: &[u8]) {
    let mut formula = [0u8; 65_537];
    let formula = read_taken(rt, formula_path, &mut formula);
    print_text(rt, formula);
}
