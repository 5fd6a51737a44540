// Which variables have a quantifier, one flag a variable: that of v is v - 1. The existentials are filled in before the steps, and again after a row was
// made, which clears them; the universals right of a pivot where a long-distance resolution meets opposite literals.
ghost use Rattle.std.specs.Prelude.{◌≡◌, ◌≤◌, ◌<◌, ◌-◌, get_or, drop, replicate, eqb};
ghost use Rattle.bits.specs.Flags.{flags};
ghost use Rattle.formula.specs.Bounds.{variable_fit};
ghost use Rattle.formula.specs.Word.{word_of};
ghost use Rattle.formula.specs.Prefix.{entry_count, entry_at, quantifier_of};
ghost use Rattle.formula.specs.Held.{prefix_in};
ghost use Rattle.inference.specs.Existentials.{put_if, quantified_entry, quantified_flags, existential_of};

use bits::{is_set, put};
use formula::literal::Variable;
use formula::prefix::{Entry, Prefix};
use formula::word::Word;

// Where in scratch the existentials end: they begin at `LATER`.
pub const EXISTENTIALS_END: usize = 512;

// How many bytes hold the flags, eight a byte.
pub const FLAG_BYTES: usize = 128;

// Puts a variable's flag, where it is asked for.
fn put_if(asked: bool, variable: Variable, bytes: &mut [u8; FLAG_BYTES])
    requires is_positive { 1 ≤ variable.0 }
    requires in_bound { variable.0 ≤ 1024 }
    ensures { flags bytes.new ≡ put_if asked variable.0 (flags bytes.old) }
{
    if asked {
        put(bytes, variable.0 - 1, true);
    }
}

// Puts the flag of the entry at a place, if it has the quantifier asked for: existential or not.
// The quantifier is a flag: the kinds of `Entry` hold a variable each, and none is at hand where one of the two is asked for.
#[tactic(auto, using(formula::specs::Prefix::Laws::shown_existential, formula::specs::Prefix::Laws::shown_universal, formula::specs::Prefix::Laws::entry_at_ranged))]
fn fill_entry(prefix: Prefix, place: usize, existential: bool, bytes: &mut [u8; FLAG_BYTES])
    requires { place < entry_count prefix.words.now }
    ensures { flags bytes.new ≡ quantified_entry (quantifier_of existential) (flags bytes.old) (entry_at prefix.entry.words.now place) }
{
    match prefix.entry_at(place) {
        Entry::Existential(v) => put_if(existential, v, bytes),
        Entry::Universal(v) => put_if(!existential, v, bytes),
    }
}

// Puts the flags of the existentials, or of the universals, from a place of the prefix on. One pass over it.
// Lent as a slice: of a part that is lent as an array the callers' check does not know what it becomes.
#[tactic(auto, unfolding(crate::specs::Existentials::flags_from))]
pub fn fill_quantified(prefix: Prefix, from: usize, existential: bool, bytes: &mut [u8])
    requires { bytes.old ≡ replicate 128 0 }
    ensures { flags bytes.new ≡ quantified_flags (quantifier_of existential) (drop from (prefix_in prefix.entry)) }
{
    let flags = bytes.as_mut_array::<FLAG_BYTES>().unwrap();
    for i in from..prefix.count() {
        fill_entry(prefix, i, existential, flags);
    }
}

// The variable, if it is existential.
fn if_existential(variable: Variable, bytes: &[u8; FLAG_BYTES]) -> Option<Variable>
    requires is_positive { 1 ≤ variable.0 }
    requires in_bound { variable.0 ≤ 1024 }
    ensures { result ≡ variable_fit (eqb (get_or (flags bytes.now) (variable.0 - 1) 0) 1) variable.0 }
{
    if is_set(bytes, variable.0 - 1) {
        return Some(variable);
    }
    None
}

// The variable of a word that is a positive literal of an existential.
#[tactic(auto, using(formula::specs::Word::Laws::positive_bounded))]
pub fn existential_of(word: i32, bytes: &[u8; FLAG_BYTES]) -> Option<Variable>
    ensures { result ≡ existential_of (flags bytes.now) (word_of word) }
{
    match Word::of(word) {
        Word::Zero => None,
        Word::TooLarge => None,
        Word::Positive(v) => if_existential(v, bytes),
        Word::Negative(_) => None,
    }
}
