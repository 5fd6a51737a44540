// 01's two programs but for opening, reading and writing: the entries of `check` and `dependents` with exactly the room that 01
// gives to the programs.
ghost use Rattle.std.specs.Prelude.{◌≡◌};
ghost use Rattle.report.specs.Program.{program_room, ProgramLine, ProgramText, formula_read};

use crate::check::check_line;
use crate::dependents::dependency_lines;
use crate::settle::{FileLength, settle_formula};
use dependency::scratch::SCRATCH;

// Prints the first program's line for its two files and answers its length. 160 bytes always do.
pub fn program_line(formula: &[u8], proof: &[u8], line: &mut [u8]) -> usize
    ensures { ProgramLine formula.now proof.now line.old line.new result }
{
    let mut prefix = [0i32; 3_072];
    let mut clauses = [0i32; 16_384];
    let mut steps = [0i32; 16_384];
    let mut scratch = [0u8; SCRATCH];
    let mut offsets = [0u32; 16_384];
    check_line(
        formula,
        proof,
        FileLength::MAX,
        &mut prefix,
        &mut clauses,
        &mut steps,
        &mut scratch,
        &mut offsets,
        line,
    )
}

// Prints the second program's text for its file and answers its length. 1,316,864 bytes always do.
pub fn program_text(formula: &[u8], text: &mut [u8]) -> usize
    ensures { ProgramText formula.now text.old text.new result }
{
    let mut prefix = [0i32; 3_072];
    let mut clauses = [0i32; 16_384];
    let mut scratch = [0u8; SCRATCH];
    dependency_lines(
        formula,
        FileLength::MAX,
        &mut prefix,
        &mut clauses,
        &mut scratch,
        text,
    )
}

// Whether the formula is settled as read. Where it is not, the first program's line is the same whatever the proof.
pub fn formula_is_read(formula: &[u8]) -> bool
    ensures { result ≡ formula_read program_room formula.now }
{
    let mut prefix = [0i32; 3_072];
    let mut clauses = [0i32; 16_384];
    settle_formula(formula, FileLength::MAX, &mut prefix, &mut clauses).is_ok()
}
