// A file is settled: its length is within the largest that is taken, `bound`, and it is read, or it is refused. 2 on the file's
// length comes ahead of all else in it.
ghost use Rattle.std.specs.Prelude.{◌≡◌, leb, length};
ghost use Rattle.report.specs.Settle.{file_fit, FormulaSettled, ProofSettled};

use formula::read::{Filled, read_formula};
use formula::refusal::{Reason, Refusal};
use prooffile::file::read_proof;

// How many bytes a file has.
#[derive(Clone, Copy)]
pub struct FileLength(pub usize);

impl FileLength {
    // The largest that 01's programs take.
    pub const MAX: usize = 65_536;

    // The length of a file, if it is taken: within the bound.
    pub fn new(n: usize, bound: usize) -> Option<FileLength>
        ensures { result ≡ file_fit (leb n bound) n }
    {
        if n <= bound {
            Some(FileLength(n))
        } else {
            None
        }
    }
}

// The formula's file, read into the two tables. Past the used part they hold anything.
pub fn settle_formula(
    file: &[u8],
    bound: usize,
    prefix: &mut [i32],
    clauses: &mut [i32],
) -> Result<Filled, Refusal>
    ensures { FormulaSettled bound file.now (length prefix.old) (length clauses.old) prefix.new clauses.new result }
{
    let Some(_) = FileLength::new(file.len(), bound) else {
        return Err(Refusal::new(Reason::Oversized, 0));
    };
    read_formula(file, prefix, clauses)
}

// The proof file for a formula of `clause_count` clauses, read into the table of steps.
pub fn settle_proof(
    file: &[u8],
    bound: usize,
    clause_count: u32,
    steps: &mut [i32],
) -> Result<usize, Refusal>
    ensures { ProofSettled bound file.now clause_count (length steps.old) steps.new result }
{
    let Some(_) = FileLength::new(file.len(), bound) else {
        return Err(Refusal::new(Reason::Oversized, 0));
    };
    read_proof(file, clause_count, steps)
}
