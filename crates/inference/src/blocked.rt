// Does a variable of the clause depend on the reduced one, and which one stands leftmost in the prefix? By the row of the reduced variable,
// which stands in scratch.
ghost use Rattle.std.specs.Prelude.{◌≡◌, ◌≤◌, get_or, eqb, nat_abs};
ghost use Rattle.formula.specs.Bounds.{variable_bound};
ghost use Rattle.formula.specs.Decode.{clause_at};
ghost use Rattle.formula.specs.Free.{occurs};
ghost use Rattle.formula.specs.Prefix.{with_blocks, IsTable};
ghost use Rattle.formula.specs.Held.{prefix_in};
ghost use Rattle.dependency.specs.Scratch.{row_in};
ghost use Rattle.inference.specs.Blocked.{touches, blocks_by};
ghost use Rattle.inference.specs.Steps.{leftmost};

use crate::clause::any_word;
use dependency::row::depends_in;
use dependency::scratch::SMALL;
use formula::literal::Variable;
use formula::prefix::Prefix;
use formula::refusal::Blocker;
use formula::word::Word;

// Whether a word's variable depends on the row's.
#[tactic(auto, using(crate::proofs::Theorems::Blocked::Laws::variable_near, crate::proofs::Theorems::Blocked::Laws::row_far))]
fn word_touches(word: i32, row: &[u8; SMALL]) -> bool
    ensures { result ≡ eqb (get_or (row_in row.now) (nat_abs word) 0) 1 }
{
    let variable = Word::variable(word);
    if variable <= 1_024 {
        return depends_in(row, variable);
    }
    false
}

// Whether a variable of the clause that begins at `from` depends on the row's. One pass over the clause.
pub fn row_touches(words: &[i32], from: usize, row: &[u8; SMALL]) -> bool
    ensures { result ≡ touches (row_in row.now) (clause_at words.now from) }
{
    any_word(words, from, |word| word_touches(word, row))
}

// Whether a variable stands in the clause that begins at `from`. One pass over the clause.
fn has_variable(words: &[i32], from: usize, variable: Variable) -> bool
    requires { variable.0 ≤ variable_bound }
    ensures { result ≡ occurs variable.0 (clause_at words.now from) }
{
    any_word(words, from, |word| Word::variable(word) == variable.0)
}

// Whether a variable depends on the row's and stands in the clause.
#[tactic(auto, unfolding(crate::specs::Blocked::blocks_by))]
fn blocks(variable: Variable, words: &[i32], from: usize, row: &[u8; SMALL]) -> bool
    requires { variable.0 ≤ variable_bound }
    ensures { result ≡ blocks_by (row_in row.now) (clause_at words.now from) variable.0 }
{
    if depends_in(row, variable.0) {
        return has_variable(words, from, variable);
    }
    false
}

// What blocks: the leftmost entry whose variable depends on the row's and stands in the clause, which has one. A pass over the clause for
// each dependent before it; it is asked for once in a run, where a step is refused. By places, by which an entry is asked for with its block.
#[tactic(auto, using(crate::proofs::Theorems::Blocked::Laws::blocks_drop, crate::proofs::Theorems::Blocked::Laws::blocks_past), unfolding(crate::specs::Steps::leftmost))]
pub fn find_blocker(prefix: Prefix, words: &[i32], from: usize, row: &[u8; SMALL]) -> Blocker
    requires { IsTable prefix.words.now }
    ensures { result ≡ leftmost (blocks_by (row_in row.now) (clause_at words.now from)) (with_blocks (prefix_in prefix.entry)) }
{
    for i in 0..prefix.count() {
        let blocker = prefix.blocker_at(i);
        if blocks(blocker.variable, words, from, row) {
            return blocker;
        }
    }
    Blocker {
        variable: Variable::first(),
        block: 0,
    }
}
