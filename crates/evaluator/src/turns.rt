// The game's two turns. Each sets the first variable left to 0 and, where that does not decide, to 1, and hands the
// rest of the prefix to the side that is due; the values are put back before it answers.
// Two functions, and not one with the quantifier as a value: the specification names the form of two that call each other.
ghost use Rattle.std.specs.Prelude.{◌≡◌, ◌<◌, ◌≤◌, length};
ghost use Rattle.qbf.specs.Formula.{existential, universal};
ghost use Rattle.qbf.specs.Play.{lost};
ghost use Rattle.formula.specs.Prefix.{entry_at, entry_count};
ghost use Rattle.formula.specs.Held.{prefix_in};
ghost use Rattle.formula.specs.Bounds.{variable_bound};
ghost use Rattle.formula.specs.Decode.{matrix_of};
ghost use Rattle.evaluator.specs.Values.{values_of};
ghost use Rattle.evaluator.specs.Turns.{Due, universal_due};

use crate::matrix::matrix_falsified;
use formula::prefix::{Entry, Prefix};

// The first variable left is universal; with none left the existential side is due.
pub fn universal_due(prefix: Prefix) -> bool
    ensures { result ≡ universal_due (prefix_in prefix.entry) }
{
    if 0 < prefix.count() {
        match prefix.entry_at(0) {
            Entry::Existential(_) => false,
            Entry::Universal(_) => true,
        }
    } else {
        false
    }
}

// The number of the first variable left.
fn first_variable(prefix: Prefix) -> usize
    requires { 0 < entry_count prefix.words.now }
    ensures value { result ≡ (entry_at prefix.entry.words.now 0).variable }
    ensures bound { result ≤ variable_bound }
{
    prefix.variable_at(0).0
}

// The position is lost: both values of the first variable, an existential, lose. With none left, the matrix decides.
#[cycle(existential_turn_universal_turn)]
#[tactic(auto, using(crate::proofs::Position::back_once, crate::proofs::Position::back_twice))]
pub fn existential_turn(prefix: Prefix, values: &mut [u8], clauses: &[i32]) -> bool
    requires { Due existential (length values.old) prefix.words.now }
    ensures value { result ≡ lost (prefix_in prefix.entry) (values_of values.old) (matrix_of clauses.now) }
    ensures values_unchanged { values.new ≡ values.old }
{
    if prefix.count() == 0 {
        return matrix_falsified(values, clauses);
    }
    let e = first_variable(prefix);
    let rest = prefix.later();
    let held = values[e];
    values[e] = 0;
    if universal_due(rest) {
        if universal_turn(rest, values, clauses) {
            values[e] = 1;
            let lost = universal_turn(rest, values, clauses);
            values[e] = held;
            lost
        } else {
            values[e] = held;
            false
        }
    } else {
        if existential_turn(rest, values, clauses) {
            values[e] = 1;
            let lost = existential_turn(rest, values, clauses);
            values[e] = held;
            lost
        } else {
            values[e] = held;
            false
        }
    }
}

// The position is lost: one value of the first variable, a universal, loses.
#[cycle(existential_turn_universal_turn)]
#[tactic(auto, using(crate::proofs::Position::back_once, crate::proofs::Position::back_twice))]
pub fn universal_turn(prefix: Prefix, values: &mut [u8], clauses: &[i32]) -> bool
    requires { Due universal (length values.old) prefix.words.now }
    ensures value { result ≡ lost (prefix_in prefix.entry) (values_of values.old) (matrix_of clauses.now) }
    ensures values_unchanged { values.new ≡ values.old }
{
    let u = first_variable(prefix);
    let rest = prefix.later();
    let held = values[u];
    values[u] = 0;
    if universal_due(rest) {
        if universal_turn(rest, values, clauses) {
            values[u] = held;
            true
        } else {
            values[u] = 1;
            let lost = universal_turn(rest, values, clauses);
            values[u] = held;
            lost
        }
    } else {
        if existential_turn(rest, values, clauses) {
            values[u] = held;
            true
        } else {
            values[u] = 1;
            let lost = existential_turn(rest, values, clauses);
            values[u] = held;
            lost
        }
    }
}
