// The proof file: the trailer that ends it, and the step words that stand before the trailer. The note before them is not read.
// One pass over the bytes of the steps.
ghost use Rattle.std.specs.Prelude.{◌≡◌, ◌++◌, ◌+◌, ◌*◌, ◌≤◌, length, drop};
ghost use Rattle.prooffile.specs.File.{number_at, words_of, mark_at, has_trailer, step_count, proof_refusal, length_answer, ProofRead};

use formula::bounds::ProofLength;
use formula::clear::clear_tail;
use formula::refusal::{Reason, Refusal};

// Bytes of the trailer.
const TRAILER: usize = 12;

// The mark: the bytes 51 44 52 31 as a number.
const MARK: u32 = 0x3152_4451;

// The unsigned number that the four bytes at a place write, the lowest first.
fn number_at(bytes: &[u8], at: usize) -> u32
    requires { at + 4 ≤ length bytes.now }
    ensures { result ≡ number_at bytes.now at }
{
    u32::from_le_bytes([bytes[at], bytes[at + 1], bytes[at + 2], bytes[at + 3]])
}

// Whether the four bytes at a place are the mark of a trailer.
fn mark_at(bytes: &[u8], at: usize) -> bool
    requires { at + 4 ≤ length bytes.now }
    ensures { result ≡ mark_at bytes.now at }
{
    number_at(bytes, at) == MARK
}

// Whether a trailer ends the file: 11 if not.
fn has_trailer(file: &[u8]) -> bool
    ensures { result ≡ has_trailer file.now }
{
    if file.len() < TRAILER {
        return false;
    }
    let start = file.len() - TRAILER;
    if mark_at(file, start + 8) {
        let distance = number_at(file, start) as usize;
        if distance % 4 != 0 {
            return false;
        }
        distance <= start
    } else {
        false
    }
}

// How many step words there are, or the refusal: 11, 2, 12, 3.
fn check_trailer(file: &[u8], clause_count: u32, room: usize) -> Result<usize, Refusal>
    ensures { result ≡ length_answer (proof_refusal file.now clause_count room) (step_count file.now) }
{
    if has_trailer(file) {
        let start = file.len() - TRAILER;
        let words = (number_at(file, start) as usize) / 4;
        let Some(_) = ProofLength::new(words) else {
            return Err(Refusal::new(Reason::Oversized, 0));
        };
        let count = number_at(file, start + 4);
        if count != clause_count {
            return Err(Refusal::new(Reason::OtherFormula, 0));
        }
        if room < words {
            return Err(Refusal::new(Reason::NoRoom, 0));
        }
        Ok(words)
    } else {
        Err(Refusal::new(Reason::NoTrailer, 0))
    }
}

// The words that the bytes write, to the start of the table.
fn copy_words(bytes: &[u8], n: usize, steps: &mut [i32])
    requires { (length bytes.now ≡ 4 * n) × (n ≤ length steps.old) }
    ensures { steps.new ≡ words_of bytes.now ++ drop n steps.old }
{
    for i in 0..n {
        steps[i] = number_at(bytes, 4 * i).cast_signed();
    }
}

// Reads the steps of a proof for a formula of `clause_count` clauses: answers how many words they are.
pub fn read_proof(file: &[u8], clause_count: u32, steps: &mut [i32]) -> Result<usize, Refusal>
    ensures { ProofRead file.now clause_count steps.old steps.new result }
{
    match check_trailer(file, clause_count, steps.len()) {
        Err(refusal) => {
            clear_tail(steps, 0, 0);
            Err(refusal)
        }
        Ok(n) => {
            let end = file.len() - TRAILER;
            let start = end - 4 * n;
            copy_words(&file[start..end], n, steps);
            clear_tail(steps, n, 0);
            Ok(n)
        }
    }
}
