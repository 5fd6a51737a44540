// Dependency rows: two searches, then a flag for each variable. Callers make a row in the 640 bytes that they lend and ask it about variables.
ghost use Rattle.std.specs.Prelude.{◌≡◌, ◌≤◌, ◌<◌, length, get_or, eqb};
ghost use Rattle.bits.specs.Flags.{flags};
ghost use Rattle.formula.specs.Held.{formula_in};
ghost use Rattle.dependency.specs.Scratch.{small_bound, row_in, RowMade};
ghost use Rattle.dependency.specs.Bits.{depends_at, RowFlags};

use crate::marks::{Slot, VARIABLES, is_entry};
use crate::scratch::{LATER, ROW, SMALL};
use crate::search::search;
use crate::universal::Universal;
use bits::{is_set, put};
use formula::clear::clear_tail;

// Whether the variable v + 1 depends on u: it may be passed, and u is joined to it and −u to its opposite, or u to its opposite and −u to it. That a literal is
// reached is told by its opposite's flag.
fn depends_at(work: &[u8; SMALL], v: usize) -> bool
    requires { v < 1024 }
    ensures { result ≡ depends_at (flags work.now) v }
{
    let variable = v + 1;
    if is_set(work, VARIABLES + variable) {
        let at = 2 * variable;
        let own = Slot { at };
        let opposite = Slot { at: at + 1 };
        let straight = is_entry(work, true, opposite) & is_entry(work, false, own);
        let crossed = is_entry(work, true, own) & is_entry(work, false, opposite);
        return straight | crossed;
    }
    false
}

// Of the variables that may be passed those stay that depend on u.
fn fill_row(work: &mut [u8; SMALL])
    ensures { RowFlags (flags work.old) (flags work.new) 1024 }
{
    for v in 0..1_024 {
        let depends = depends_at(work, v);
        put(work, VARIABLES + 1 + v, depends);
    }
}

// Makes the row of a universal; all else of the bytes is left 0. Passes over all clauses until one changes nothing: at most as many as there are literals of
// existentials right of it, for each of its two literals.
pub fn make_row(universal: Universal, work: &mut [u8; SMALL])
    ensures { RowMade (formula_in universal.entry.tables) universal.entry.variable.0 work.new }
{
    search(universal.tables, universal.variable, work);
    fill_row(work);
    clear_tail(&mut work[..ROW], 0, 0);
    clear_tail(work, LATER, 0);
}

// By the row that stands in scratch, the variable of this number depends on the row's universal.
pub fn depends_in(scratch: &[u8], variable: usize) -> bool
    requires scratch_enough { small_bound ≤ length scratch.now }
    requires in_bound { variable ≤ 1024 }
    ensures { result ≡ eqb (get_or (row_in scratch.now) variable 0) 1 }
{
    if variable == 0 {
        return false;
    }
    is_set(scratch, VARIABLES + variable)
}
