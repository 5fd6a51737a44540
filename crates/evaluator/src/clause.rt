// Literals and clauses under the values given. A clause is left at its first true literal. Every word has a meaning here,
// so nothing is required of the tables.
ghost use Rattle.std.specs.Prelude.{◌≡◌, get_or};
ghost use Rattle.qbf.specs.Play.{true_literal, satisfied};
ghost use Rattle.formula.specs.Decode.{literal_of, first_clause, clause_of};
ghost use Rattle.evaluator.specs.Values.{values_of};

use formula::word::Word;

// The value of a variable; one that the values do not reach has 0.
fn value(values: &[u8], v: usize) -> u8
    ensures { result ≡ get_or values.now v 0 }
{
    if v < values.len() { values[v] } else { 0 }
}

// The literal is true: a positive one where its variable has 1, a negative one where it has not.
fn literal_true(values: &[u8], word: i32) -> bool
    ensures { result ≡ true_literal (values_of values.now) (literal_of word) }
{
    let b = value(values, word.unsigned_abs() as usize);
    if word < 0 { b != 1 } else { b == 1 }
}

// The first clause of the words has a true literal.
pub fn clause_satisfied(values: &[u8], words: &[i32]) -> bool
    ensures { result ≡ satisfied (values_of values.now) (clause_of (first_clause words.now)) }
{
    for &word in words {
        if Word::is_zero(word) {
            return false;
        }
        if literal_true(values, word) {
            return true;
        }
    }
    false
}
