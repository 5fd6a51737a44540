// The end of a game: has some clause no true literal under the values given? The matrix is left at its first such clause.
ghost use Rattle.std.specs.Prelude.{◌≡◌, ◌<◌, length, drop};
ghost use Rattle.qbf.specs.Play.{falsified};
ghost use Rattle.formula.specs.Decode.{words_after, matrix_of};
ghost use Rattle.evaluator.specs.Values.{values_of};

use crate::clause::clause_satisfied;
use formula::words::clause_end;

// Where the clause after the one at `from` starts.
fn next_clause(clauses: &[i32], from: usize) -> usize
    requires { from < length clauses.now }
    ensures rest { drop result clauses.now ≡ words_after clauses.now from }
    ensures further { from < result }
{
    clause_end(clauses, from) + 1
}

// Some clause has no true literal.
pub fn matrix_falsified(values: &[u8], clauses: &[i32]) -> bool
    ensures { result ≡ falsified (values_of values.now) (matrix_of clauses.now) }
{
    let mut i = 0;
    // Clauses are of differing length: where the next one starts is known behind this one.
    while i < clauses.len() {
        if clause_satisfied(values, &clauses[i..]) {
            i = next_clause(clauses, i);
        } else {
            return true;
        }
    }
    false
}
