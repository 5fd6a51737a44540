// Which variables a prefix lists, as the check of tables asks it: by a bit for each variable, the variable v's at v − 1, where the caller lent
// 128 bytes; where it lent fewer none is used, and each question goes through the prefix.
ghost use Rattle.std.specs.Prelude.{◌≡◌, ◌-◌, ◌≤◌, ◌<◌, length, set};
ghost use Rattle.bits.specs.Flags.{flags};
ghost use Rattle.formula.specs.Bounds.{variable_bound};
ghost use Rattle.formula.specs.Tables.{listed_in};
ghost use Rattle.formula.specs.Tables.Scan.{AllOrNone, Listing, marks_used};

use crate::word::Word;
use bits::{is_set, put};

// How many of the bytes lent are marks: a bit for each variable, or none. Marks are a slice that may be empty, and no `Option` of an array: that would be lent
// again at each entry, and taken out of the scratch for good.
pub fn marks_used(lent: usize) -> usize
    ensures { result ≡ marks_used lent }
{
    if lent < 128 {
        return 0;
    }
    128
}

// Whether a table lists the variable, entry by entry.
fn stands_in(table: &[i32], variable: usize) -> bool
    ensures { result ≡ listed_in table.now variable }
{
    table
        .chunks_exact(3)
        .any(|entry| variable == Word::ordinal(entry[0]))
}

// The variables that a table lists: the table with its marks, if there are any.
#[derive(Clone, Copy)]
pub struct Listed<'a> {
    pub table: &'a [i32],
    pub marks: &'a [u8],
    pub ghost listing: { Listing table.now marks.now },
}

impl<'a> Listed<'a> {
    // Whether the variable is among them, by its mark where there are marks. The loop over clause words asks it of each: the test of the
    // length is the same each time.
    pub fn has(self, variable: usize) -> bool
        requires { (1 ≤ variable) × (variable ≤ variable_bound) }
        ensures { result ≡ listed_in self.entry.table.now variable }
    {
        if self.marks.len() < 1 {
            return stands_in(self.table, variable);
        }
        is_set(self.marks, variable - 1)
    }
}

// Marks the variable where there are marks.
pub fn mark(variable: usize, marks: &mut [u8])
    requires in_range { (1 ≤ variable) × (variable ≤ variable_bound) }
    requires all_or_none { AllOrNone (length marks.old) }
    ensures { 0 < length marks.old → flags marks.new ≡ set (flags marks.old) (variable - 1) 1 }
{
    if marks.len() < 1 {
        return;
    }
    put(marks, variable - 1, true);
}
