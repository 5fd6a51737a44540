// The prefix table as entries, three words each: how many there are, the entry at a place, with its block, the entries after the first, where
// those right of a variable begin, an entry put behind those that stand, words moved on, blocks numbered. Nothing else reads or writes prefix words, but for the check of
// tables, which judges them.
ghost use Rattle.std.specs.Prelude.{◌≡◌, true, ◌+◌, ◌^◌, ◌<◌, ◌≤◌, pos, length, drop, get_or};
ghost use Rattle.formula.specs.Bounds.{variable_bound};
ghost use Rattle.formula.specs.Prefix.{prefix_of, entry_count, entry_at, entry_shown, later_entries, quantifier_number, quantifier_of, next_block, with_blocks, IsTable, entry_fits, put_entry, entry_words, Moved, prefix_words, Entries};
ghost use Rattle.formula.specs.Refusal.{no_blocker};
ghost use Rattle.qbf.specs.Formula.{entry, after};

use crate::literal::Variable;
use crate::refusal::Blocker;
use crate::word::Word;

// A variable with its quantifier.
#[derive(Clone, Copy)]
pub enum Entry {
    Existential(Variable),
    Universal(Variable),
}

// How many entries there are.
pub fn entry_count(prefix: &[i32]) -> usize
    ensures { result ≡ entry_count prefix.now }
{
    prefix.len() / 3
}

// A prefix table each of whose entries is of a variable in range, as in tables that passed their check.
#[derive(Clone, Copy)]
pub struct Prefix<'a> {
    pub words: &'a [i32],
    pub ghost entries: { Entries words.now },
}

impl<'a> Prefix<'a> {
    ghost use Rattle.formula.specs.Held.{prefix_in};

    // How many entries there are.
    pub fn count(self) -> usize
        ensures { result ≡ entry_count self.entry.words.now }
    {
        entry_count(self.words)
    }

    // The entry at a place, places counted from 0. A word that is no variable's is not met. That the place is below the count is a clause, here and where
    // entries are asked for, as it is of any index.
    pub fn entry_at(self, place: usize) -> Entry
        requires { place < entry_count self.words.now }
        ensures { result ≡ entry_shown (entry_at self.entry.words.now place) }
    {
        let at = 3 * place;
        match Variable::new(Word::ordinal(self.words[at])) {
            None => Entry::Existential(Variable::first()),
            Some(v) => {
                if Word::ordinal(self.words[at + 1]) == 2 {
                    return Entry::Universal(v);
                }
                Entry::Existential(v)
            }
        }
    }

    // The variable of the entry at a place.
    pub fn variable_at(self, place: usize) -> Variable
        requires { place < entry_count self.words.now }
        ensures { result.0 ≡ (entry_at self.entry.words.now place).variable }
    {
        match self.entry_at(place) {
            Entry::Existential(v) => v,
            Entry::Universal(v) => v,
        }
    }

    // The number of the quantifier of the entry at a place: 1 existential, 2 universal.
    fn quantifier_at(self, place: usize) -> usize
        requires { place < entry_count self.words.now }
        ensures { result ≡ quantifier_number (entry_at self.entry.words.now place).quantifier }
    {
        match self.entry_at(place) {
            Entry::Existential(_) => 1,
            Entry::Universal(_) => 2,
        }
    }

    // The variable of the entry at a place, with its block.
    pub fn blocker_at(self, place: usize) -> Blocker
        requires table { IsTable self.words.now }
        requires place_in { place < entry_count self.words.now }
        ensures { result ≡ get_or (with_blocks (prefix_in self.entry)) place no_blocker }
    {
        Blocker {
            variable: self.variable_at(place),
            block: self.words[3 * place + 2] as usize,
        }
    }

    // The table of the entries after the first.
    pub fn later(self) -> Prefix<'a>
        requires { 0 < entry_count self.words.now }
        ensures { result.words.now ≡ later_entries self.entry.words.now }
    {
        Prefix {
            words: later_entries(self.words),
        }
    }

    // Where the entries right of a variable begin. One pass over the prefix, by places, since a place is the answer.
    pub fn right_of(self, variable: Variable) -> usize
        ensures { drop result (prefix_in self.entry) ≡ after variable.0 (prefix_in self.entry) }
    {
        let count = self.count();
        for i in 0..count {
            if self.variable_at(i) == variable {
                return i + 1;
            }
        }
        count
    }
}

// The table of the entries after the first.
pub fn later_entries(prefix: &[i32]) -> &[i32]
    requires { 0 < entry_count prefix.now }
    ensures { result.now ≡ later_entries prefix.now }
{
    &prefix[3..]
}

// An entry has room behind so many entries of a table of `room` words.
pub fn entry_fits(room: usize, entries: usize) -> bool
    ensures { result ≡ entry_fits room entries }
{
    entries < room / 3
}

// How many words so many entries have.
pub fn entry_words(entries: usize) -> usize
    requires { entry_words entries < 2 ^ 64 }
    ensures { result ≡ entry_words entries }
{
    3 * entries
}

// The word of a quantifier.
fn quantifier_word(existential: bool) -> i32
    ensures { result ≡ pos (quantifier_number (quantifier_of existential)) }
{
    if existential {
        return 1;
    }
    2
}

// Puts an entry with its block behind so many entries. The quantifier is a flag beside the variable, and no `Entry`: sets are read by the flag before a
// variable is known, and an `Entry` made of the two would be taken apart here.
pub fn put_entry(
    prefix: &mut [i32],
    entries: usize,
    existential: bool,
    variable: Variable,
    block: usize,
)
    requires has_room { entry_fits (length prefix.old) entries ≡ true }
    requires in_bound { (variable.0 ≤ variable_bound) × (block ≤ variable_bound) }
    ensures { prefix.new ≡ put_entry prefix.old entries (entry variable.0 (quantifier_of existential)) block }
{
    let at = 3 * entries;
    prefix[at] = variable.0 as i32;
    prefix[at + 1] = quantifier_word(existential);
    prefix[at + 2] = block as i32;
}

// Moves the words used on by so many.
pub fn move_words(prefix: &mut [i32], used: usize, by: usize)
    requires { by + used ≤ length prefix.old }
    ensures { Moved used by prefix.old prefix.new }
{
    prefix.copy_within(..used, by);
}

// The block of an entry of the quantifier `quantifier` behind one of the quantifier `last` in the block `block`. By their numbers, 0 ahead of the first
// entry, as the definition of the check of tables has them.
pub fn next_block(last: usize, block: usize, quantifier: usize) -> usize
    requires { block + 1 < 2 ^ 64 }
    ensures { result ≡ next_block last block quantifier }
{
    if quantifier == last {
        return block;
    }
    block + 1
}

// Numbers the blocks of a table of whole entries.
pub fn number_blocks(prefix: &mut [i32])
    requires entries { Entries prefix.old }
    requires entries_in_bound { entry_count prefix.old ≤ variable_bound }
    requires whole_entries { length prefix.old ≡ entry_words (entry_count prefix.old) }
    ensures { prefix.new ≡ prefix_words (prefix_of prefix.old) }
{
    // 0, as no quantifier's number is, ahead of the first entry.
    let mut last = 0;
    let mut block = 0;
    for i in 0..entry_count(prefix) {
        let table = Prefix { words: prefix };
        let quantifier = table.quantifier_at(i);
        let variable = table.variable_at(i);
        block = next_block(last, block, quantifier);
        put_entry(prefix, i, quantifier == 1, variable, block);
        last = quantifier;
    }
}
