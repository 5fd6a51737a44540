// C functions on whole files: the lines that the two programs print, from bytes to bytes.
ghost use Rattle.std.specs.Prelude.{[]};
ghost use Rattle.report.specs.Check.{LineChecked, lent};
ghost use Rattle.report.specs.Dependents.{LinesPrinted};

use report::check::check_line;
use report::dependents::dependency_lines;

// The first program's line for its two files, into `line`: answers its bytes, 0 where it does not fit.
#[unsafe(no_mangle)]
pub extern "C" fn qdr_check_line(
    formula: &[u8],
    proof: &[u8],
    file_bound: usize,
    prefix: &mut [i32],
    clauses: &mut [i32],
    steps: &mut [i32],
    scratch: &mut [u8],
    offsets: &mut [u32],
    line: &mut [u8],
) -> usize
    ensures { LineChecked (lent file_bound prefix.old clauses.old steps.old scratch.old offsets.old) formula.now proof.now line.old line.new result prefix.new clauses.new steps.new scratch.new offsets.new }
{
    check_line(
        formula, proof, file_bound, prefix, clauses, steps, scratch, offsets, line,
    )
}

// The second program's text for its file, into `text`: answers its bytes, 0 where it does not fit.
#[unsafe(no_mangle)]
pub extern "C" fn qdr_dependency_lines(
    formula: &[u8],
    file_bound: usize,
    prefix: &mut [i32],
    clauses: &mut [i32],
    scratch: &mut [u8],
    text: &mut [u8],
) -> usize
    ensures { LinesPrinted (lent file_bound prefix.old clauses.old [] scratch.old []) formula.now text.old text.new result prefix.new clauses.new scratch.new }
{
    dependency_lines(formula, file_bound, prefix, clauses, scratch, text)
}
