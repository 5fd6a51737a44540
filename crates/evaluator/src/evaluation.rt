// The evaluator: plays the game of admitted tables of up to 16 variables, from the first position to the end.
ghost use Rattle.std.specs.Prelude.{◌≡◌};
ghost use Rattle.qbf.specs.Play.{lost};
ghost use Rattle.formula.specs.Held.{prefix_in};
ghost use Rattle.formula.specs.Decode.{matrix_of};
ghost use Rattle.evaluator.specs.Evaluation.{unset, evaluation_of};

use crate::turns::{existential_turn, universal_due, universal_turn};
use formula::bounds::{AtMost, GAME_VARIABLES};
use formula::prefix::Prefix;
use formula::refusal::{Reason, Refusal};
use formula::tables::{Tables, check_tables};

// How many variables a game has that is played.
pub type GameLength = AtMost<GAME_VARIABLES>;

// The first position is lost: the side of the first variable begins.
fn first_lost(prefix: Prefix, clauses: &[i32]) -> bool
    ensures { result ≡ lost (prefix_in prefix.entry) unset (matrix_of clauses.now) }
{
    let mut values = [0u8; 1025];
    if universal_due(prefix) {
        universal_turn(prefix, &mut values, clauses)
    } else {
        existential_turn(prefix, &mut values, clauses)
    }
}

// The game of admitted tables: whether the first position is not lost.
fn play(tables: Tables) -> Result<bool, Refusal>
    ensures { result ≡ evaluation_of tables.entry.prefix.now tables.entry.clauses.now }
{
    let prefix = tables.entries();
    let Some(_) = GameLength::new(prefix.count()) else {
        return Err(Refusal::new(Reason::Oversized, 0));
    };
    Ok(!first_lost(prefix, tables.clauses))
}

// The evaluator's one entry, for tables of any kind: whether the formula is true, or the refusal.
pub fn evaluate(prefix: &[i32], clauses: &[i32]) -> Result<bool, Refusal>
    ensures { result ≡ evaluation_of prefix.now clauses.now }
{
    check_tables(prefix, clauses)?;
    play(Tables { prefix, clauses })
}
