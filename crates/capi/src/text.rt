// C functions on the text of a formula: its reading into tables, and the writing of tables.
ghost use Rattle.std.specs.Prelude.{ℕ, length, Result};
ghost use Rattle.formula.specs.Text.{ReadPost};
ghost use Rattle.formula.specs.Write.{Writes};
ghost use Rattle.formula.specs.declared.refusal.Refusal.{Refusal};
ghost use Rattle.capi.specs.Codes.{Tells, read_code, write_code};

use crate::codes::{accept, refuse};
use formula::read::read_formula;
use formula::write::write_formula;

// Reads a text into the two tables: `out` is the prefix words used, the clause words used, C, 0, 0.
#[unsafe(no_mangle)]
pub extern "C" fn qdr_read(
    text: &[u8],
    prefix: &mut [i32],
    clauses: &mut [i32],
    out: &mut [u64; 5],
) -> u32
    ensures { Tells read_code (ReadPost text.now prefix.old clauses.old prefix.new clauses.new) result out.new }
{
    match read_formula(text, prefix, clauses) {
        Ok(filled) => accept(out, filled.prefix_used, filled.clauses_used, filled.clauses),
        Err(r) => refuse(out, r),
    }
}

// Writes tables as a text: `out` is the bytes used and zeros.
#[unsafe(no_mangle)]
pub extern "C" fn qdr_write(
    prefix: &[i32],
    clauses: &[i32],
    text: &mut [u8],
    out: &mut [u64; 5],
) -> u32
    ensures { Tells write_code (λ (a : Result ℕ Refusal). Writes prefix.now clauses.now (length text.old) a text.new) result out.new }
{
    match write_formula(prefix, clauses, text) {
        Ok(used) => accept(out, used, 0, 0),
        Err(r) => refuse(out, r),
    }
}
