// One word of a clause against the marks of the two searches: is it an entry, is it reached? A literal's mark is two flags: whether it is an entry of the
// search, and whether its variable may be passed. The bytes lent hold the entries of the search from u, then the variables, then the entries of the search
// from −u; both searches go in one pass, each word being looked up once.
ghost use Rattle.std.specs.Prelude.{◌≡◌, Bool, ◌<◌, ◌≤◌, ◌+◌, ◌-◌, ◌/◌, get_or};
ghost use Rattle.bits.specs.Flags.{flags};
ghost use Rattle.formula.specs.Word.{word_of};
ghost use Rattle.dependency.specs.Marks.{see_at, see_word, reach_word};
ghost use Rattle.dependency.specs.Bits.{base, is_on, marks_in, seen_by, ReachedAt};

use crate::scratch::{LATER, SMALL};
use bits::{is_set, put};
use formula::word::Word;

// The variable v has the flag VARIABLES + v.
pub const VARIABLES: usize = 2_047;

// The place of a literal among marks, two a variable; no literal has the places 0 and 1.
#[derive(Clone, Copy)]
pub struct Slot {
    pub at: usize,
    pub ghost among_marks: { (2 ≤ at) × (at < 2050) },
}

// What is known of a clause's entries, for the search from u and the one from −u: 0 for none, the variable of the only ones, or SEVERAL.
// Numbers and no enum: they are those of the definitions, and the contracts of `see_at` and `reach_at` would need a map from an enum's cases to them.
#[derive(Clone, Copy)]
pub struct Seen {
    pub positive: usize,
    pub negative: usize,
}

// Entries of two variables.
pub const SEVERAL: usize = 1_025;

// The flag of the literal at a place, for the search from u with this sign.
pub fn entry_flag(positive: bool, slot: Slot) -> usize
    ensures { result ≡ base positive + (slot.at - 2) }
{
    let flag = slot.at - 2;
    if positive { flag } else { 8 * LATER + flag }
}

// Whether the literal at a place is an entry of the search from u with this sign.
pub fn is_entry(marks: &[u8; SMALL], positive: bool, slot: Slot) -> bool
    ensures { result ≡ is_on (flags marks.now) (base positive + (slot.at - 2)) }
{
    is_set(marks, entry_flag(positive, slot))
}

// What is known of a clause's entries after the literal at a place.
fn see_at(marks: &[u8; SMALL], positive: bool, slot: Slot, seen: usize) -> usize
    ensures { result ≡ see_at (get_or (marks_in positive marks.now) slot.at 0) (slot.at / 2) seen }
{
    let variable = slot.at / 2;
    if is_entry(marks, positive, slot) {
        if seen == 0 {
            return variable;
        }
        if seen == variable {
            return seen;
        }
        return SEVERAL;
    }
    seen
}

// The same after a word, for both searches.
pub fn see_word(marks: &[u8; SMALL], word: i32, seen: Seen) -> Seen
    ensures { (s : Bool) → seen_by s result ≡ see_word (marks_in s marks.now) (word_of word) (seen_by s seen) }
{
    let at = Word::slot(word);
    if at < 2 {
        return seen;
    }
    let slot = Slot { at };
    Seen {
        positive: see_at(marks, true, slot, seen.positive),
        negative: see_at(marks, false, slot, seen.negative),
    }
}

// A literal is reached from the clause's entries; `slot` is its opposite's place.
fn reach_at(entry: usize, positive: bool, slot: Slot, marks: &mut [u8; SMALL])
    ensures { ReachedAt entry positive slot.at marks.old marks.new }
{
    let variable = slot.at / 2;
    if entry == 0 {
        return;
    }
    if entry == variable {
        return;
    }
    if is_set(marks, VARIABLES + variable) {
        put(marks, entry_flag(positive, slot), true);
    }
}

// The word's literal is reached from the clause's entries.
pub fn reach_word(seen: Seen, word: i32, marks: &mut [u8; SMALL])
    ensures { (s : Bool) → marks_in s marks.new ≡ reach_word (seen_by s seen) (word_of word) (marks_in s marks.old) }
{
    let at = Word::opposite_slot(word);
    if at < 2 {
        return;
    }
    let slot = Slot { at };
    reach_at(seen.positive, true, slot, marks);
    reach_at(seen.negative, false, slot, marks);
}
