// Variables that no set binds: those that occur in a clause are put before the whole prefix, existential, in rising order. The marks are
// those that reading the clauses leaves. Time linear in V.
ghost use Rattle.std.specs.Prelude.{◌≡◌, ◌+◌, ◌≤◌, length, true};
ghost use Rattle.formula.specs.Text.Distinct.{PrefixFine};
ghost use Rattle.qbf.specs.Formula.{existential, entry};
ghost use Rattle.formula.specs.Bounds.{variable_bound};
ghost use Rattle.formula.specs.Prefix.{entry_words, entry_fits, put_entry};
ghost use Rattle.formula.specs.Free.Complete.{is_free_mark, free_marked, FreePut, completed_in, CompletionPost};

use crate::literal::Variable;
use crate::prefix::{entry_count, entry_words, move_words, number_blocks, put_entry};

// Whether a mark is that of a variable that some clause holds and no set lists.
fn is_free(mark: usize) -> bool
    ensures { result ≡ is_free_mark mark }
{
    (1 < mark) & (mark % 2 != 1)
}

// How many of the variables from 1 to V are free.
fn count_free(marks: &[usize; 1025], variables: usize) -> usize
    requires { variables ≤ variable_bound }
    ensures { result ≡ length (free_marked marks.now variables) }
{
    marks[1..=variables]
        .iter()
        .filter(|mark| is_free(**mark))
        .count()
}

// Puts the entry of an existential variable behind so many entries, and answers how many stand then.
fn put_variable(prefix: &mut [i32], entries: usize, n: usize) -> usize
    requires { (1 ≤ n) × (n ≤ variable_bound) × (entry_fits (length prefix.old) entries ≡ true) }
    ensures { (result ≡ entries + 1) × (prefix.new ≡ put_entry prefix.old entries (entry n existential) 0) }
{
    match Variable::new(n) {
        None => entries,
        Some(variable) => {
            put_entry(prefix, entries, true, variable, 0);
            entries + 1
        }
    }
}

// Puts the entries of the free variables from 1 to V to the table's start, in rising order.
fn put_free(prefix: &mut [i32], marks: &[usize; 1025], variables: usize)
    requires { (variables ≤ variable_bound) × (entry_words (length (free_marked marks.now variables)) ≤ length prefix.old) }
    ensures { FreePut marks.now variables prefix.old prefix.new }
{
    let mut at = 0;
    for n in 1..variables + 1 {
        if is_free(marks[n]) {
            at = put_variable(prefix, at, n);
        }
    }
}

// Completes the prefix, in which so many entries stand, and numbers its blocks: so many words are used then. Nothing where it has no
// room for the variables to be added.
pub fn complete(
    prefix: &mut [i32],
    entries: usize,
    variables: usize,
    marks: &[usize; 1025],
) -> Option<usize>
    requires within { (entry_words entries ≤ length prefix.old) × (variables ≤ variable_bound) }
    requires prefix_fine { PrefixFine variable_bound (completed_in marks.now variables entries prefix.old) }
    ensures { CompletionPost marks.now variables entries prefix.old prefix.new result }
{
    let added = count_free(marks, variables);
    let total = added + entries;
    if entry_count(prefix) < total {
        return None;
    }
    move_words(prefix, entry_words(entries), entry_words(added));
    put_free(prefix, marks, variables);
    let words = entry_words(total);
    number_blocks(&mut prefix[..words]);
    Some(words)
}
