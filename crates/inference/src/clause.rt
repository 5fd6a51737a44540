// A clause by the place of its first word in a table: it ends before the first 0, or with the table. Its end is found by the
// reader of clause words.
ghost use Rattle.std.specs.Prelude.{◌≡◌, ◌+◌, ℤ, length, drop};
ghost use mathlib.Core.List.{Memᴰ};
ghost use Rattle.formula.specs.Decode.{first_clause, clause_at};
ghost use Rattle.inference.specs.Words.{holds, AllInRange, TellsAny};
ghost use Rattle.inference.specs.Empty.{is_empty};

use formula::word::Word;
use formula::words::clause_end;

// The place of the 0 that closes the clause, or the table's length where none does.
#[tactic(auto, using(formula::specs::Decode::Places::close_first_clause))]
pub fn end_of(words: &[i32], from: usize) -> usize
    ensures { result ≡ from + length (first_clause (drop from words.now)) }
{
    clause_end(words, from)
}

// The words from a place on: none where it is past the last.
pub fn words_from(words: &[i32], from: usize) -> &[i32]
    ensures { result.now ≡ drop from words.now }
{
    &words[from.min(words.len())..]
}

// A clause that stands in a table, each of its words a literal in range. What asks nothing of the words takes table and place.
#[derive(Clone, Copy)]
pub struct ClauseAt<'a> {
    pub words: &'a [i32],
    pub from: usize,
    pub ghost in_range: { AllInRange (clause_at words.now from) },
}

// Whether a word of the clause that begins at `from` passes a test. One pass over the clause, up to that word.
pub fn any_word<F: Fn(i32) -> bool>(words: &[i32], from: usize, test: F) -> bool
    requires { (x : ℤ) → Memᴰ x (clause_at words.now from) → F.pre test x }
    ensures { TellsAny (F.post test) (clause_at words.now from) result }
{
    let rest = words_from(words, from);
    for &word in rest {
        if Word::is_zero(word) {
            return false;
        }
        if test(word) {
            return true;
        }
    }
    false
}

// Whether the clause that begins at `from` holds a word. One pass over the clause.
pub fn has_word(words: &[i32], from: usize, sought: i32) -> bool
    ensures { result ≡ holds sought (first_clause (drop from words.now)) }
{
    any_word(words, from, |word| sought == word)
}

// Whether the clause that begins at `from` is empty: a 0 stands there, or no word.
#[tactic(auto, using(crate::proofs::Signed::empty_here, crate::proofs::Signed::empty_past))]
pub fn is_empty(words: &[i32], from: usize) -> bool
    ensures { result ≡ is_empty (clause_at words.now from) }
{
    if from < words.len() {
        let word = words[from];
        return Word::is_zero(word);
    }
    true
}
