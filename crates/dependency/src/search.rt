// The two searches for the paths from the literals of a universal, one from each: which literals may be passed, then passes until one changes nothing, in
// turn from the first clause to the last and back, so that a chain of clauses listed along a path or against it takes few.
ghost use Rattle.std.specs.Prelude.{◌≡◌, Bool, true, false, ◌<◌, ◌≤◌, ◌+◌, drop, get_or, set};
ghost use Rattle.qbf.specs.Formula.{after};
ghost use Rattle.formula.specs.Word.{slot};
ghost use Rattle.formula.specs.Prefix.{entry_at, entry_count};
ghost use Rattle.formula.specs.Held.{prefix_in, formula_in};
ghost use Rattle.formula.specs.Decode.{clauses_of};
ghost use Rattle.dependency.specs.Search.{open_entry, open_entries, ones, entries, Settled, Searched};
ghost use Rattle.dependency.specs.Bits.{marks_in, NoEntries, Opens, RightOpened};

use crate::marks::{Slot, VARIABLES, entry_flag};
use crate::pass::pass;
use crate::scratch::{LATER, ROW, SMALL};
use bits::{count, put};
use formula::clear::clear_tail;
use formula::literal::Variable;
use formula::prefix::{Entry, Prefix};
use formula::tables::Tables;

// How many entries the two searches have.
fn count_entries(marks: &[u8; SMALL]) -> usize
    ensures { result ≡ entries (marks_in true marks.now) + entries (marks_in false marks.now) }
{
    count(&marks[..ROW]) + count(&marks[LATER..SMALL])
}

// How many literals may be passed, for both searches, before there are entries: two a variable for each. That there are none is a clause here and where the marks
// are opened, and no type: the same bytes hold entries from `start` on.
fn count_open(marks: &[u8; SMALL]) -> usize
    requires { NoEntries marks.now }
    ensures { result ≡ ones (marks_in true marks.now) + ones (marks_in false marks.now) }
{
    4 * count(&marks[ROW..LATER])
}

// Passes until one changes nothing, or nothing is left to reach; `unreached` literals are left at first, for both searches. An entry more is one less.
fn settle(clauses: &[i32], unreached: usize, marks: &mut [u8; SMALL])
    requires { unreached ≡ ones (marks_in true marks.old) + ones (marks_in false marks.old) }
    ensures { (s : Bool) → Settled (clauses_of clauses.now) (marks_in s marks.old) (marks_in s marks.new) }
{
    let mut left = unreached;
    let mut reached = count_entries(marks);
    let mut back = false;
    // To a fixed point: how many passes it takes is known at its end alone.
    while 0 < left {
        pass(clauses, back, marks);
        let more = count_entries(marks);
        if more == reached {
            return;
        }
        left -= more - reached;
        reached = more;
        back = !back;
    }
}

// The literals of the entry at a place may be passed, if it is existential.
fn open_entry(prefix: Prefix, place: usize, marks: &mut [u8; SMALL])
    requires place_in { place < entry_count prefix.words.now }
    requires no_entries { NoEntries marks.old }
    ensures { Opens marks.old marks.new (open_entry (entry_at prefix.entry.words.now place).quantifier (entry_at prefix.entry.words.now place).variable) }
{
    match prefix.entry_at(place) {
        Entry::Existential(v) => {
            let n = v.0;
            put(marks, VARIABLES + n, true);
        }
        Entry::Universal(_) => {}
    }
}

// The existentials from the place `from` on may be passed.
fn open_entries(prefix: Prefix, from: usize, marks: &mut [u8; SMALL])
    requires { NoEntries marks.old }
    ensures { Opens marks.old marks.new (open_entries (drop from (prefix_in prefix.entry))) }
{
    for i in from..prefix.count() {
        open_entry(prefix, i, marks);
    }
}

// The searches start from the literals of a universal.
fn start(variable: Variable, marks: &mut [u8; SMALL])
    requires in_range { (1 ≤ variable.0) × (variable.0 ≤ 1024) }
    requires unmarked { (s : Bool) → get_or (marks_in s marks.old) (slot variable.0 s) 0 ≡ 0 }
    ensures { (s : Bool) → marks_in s marks.new ≡ set (marks_in s marks.old) (slot variable.0 s) 3 }
{
    let at = 2 * variable.0;
    put(marks, entry_flag(true, Slot { at }), true);
    put(marks, entry_flag(false, Slot { at: at + 1 }), true);
}

// What is right of a universal may be passed, whatever the marks held.
fn open_right(prefix: Prefix, variable: Variable, marks: &mut [u8; SMALL])
    ensures { RightOpened (after variable.0 (prefix_in prefix.entry)) marks.new }
{
    clear_tail(marks, 0, 0);
    let from = prefix.right_of(variable);
    open_entries(prefix, from, marks);
}

// Both searches from the literals of a universal, whatever the marks held.
pub fn search(tables: Tables, variable: Variable, marks: &mut [u8; SMALL])
    requires { (1 ≤ variable.0) × (variable.0 ≤ 1024) }
    ensures { (s : Bool) → Searched (formula_in tables.entry) variable.0 s (marks_in s marks.new) }
{
    open_right(tables.entries(), variable, marks);
    let unreached = count_open(marks);
    start(variable, marks);
    settle(tables.clauses, unreached, marks);
}
