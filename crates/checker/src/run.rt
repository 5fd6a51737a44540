// The run over all steps. It costs no more than their words and their antecedents, and a row where the reduced variable changes.
ghost use Rattle.std.specs.Prelude.{◌≡◌, ◌≤◌, length};
ghost use Rattle.formula.specs.Decode.{clauses_of};
ghost use Rattle.inference.specs.Empty.{first_empty, empty_number};
ghost use Rattle.inference.specs.Numbered.{stored};
ghost use Rattle.checker.specs.Step.{Ready};
ghost use Rattle.checker.specs.Run.{RunDone};

use crate::step::check_step;
use dependency::scratch::SMALL;
use formula::literal::ClauseNumber;
use formula::refusal::{Reason, Refusal};
use formula::tables::Tables;
use inference::numbered::empty_after;
use inference::read::family_of;

// How many numbered clauses there are at the end of a run, and which is the first empty one, if one is.
#[derive(Clone, Copy)]
pub struct Ended {
    pub numbered: usize,
    pub empty: Option<ClauseNumber>,
}

// Every step in turn, all of the family of the first. `first` is the first empty input clause, if one is. Where the run is strict, a step that comes
// after an empty clause is refused, whatever is wrong with it (02, P10); the other rule is 01's. Where the run ended, the offsets hold the place of
// each numbered clause. The scratch is left ready for another run. `kept` is the variable whose row stands in it, if one does: a row is made only where a reduction is on
// another variable than the one before.
// `strict` is a flag alone, with no value beside it: an enum of two would say no more.
pub fn run_steps<'a>(
    tables: Tables<'a>,
    steps: &'a [i32],
    inputs: usize,
    first: Option<ClauseNumber>,
    strict: bool,
    scratch: &mut [u8; SMALL],
    offsets: &mut [u32],
) -> Result<Ended, Refusal>
    requires ready { Ready tables.prefix.now scratch.old }
    requires steps_in_bound { length steps.now ≤ 1048576 }
    requires first_told { first ≡ empty_number (first_empty 1 (clauses_of tables.clauses.now)) }
    requires inputs_have_room { inputs ≤ length offsets.old }
    requires inputs_stored { stored inputs tables.clauses.now steps.now offsets.old inputs ≡ clauses_of tables.clauses.now }
    ensures { RunDone strict tables.entry.prefix.now tables.entry.clauses.now steps.now inputs result scratch.new offsets.new }
{
    let family = family_of(steps);
    let mut numbered = inputs;
    let mut empty = first;
    let mut at = 0;
    let mut kept = None;
    // Each turn goes on by a whole step, however long: no `for` counts the place.
    while at < steps.len() {
        if strict & empty.is_some() {
            return Err(Refusal::new(Reason::Afterword, numbered + 1));
        }
        match check_step(
            tables, steps, offsets, inputs, numbered, at, family, kept, scratch,
        ) {
            Err(reason) => return Err(Refusal::new(reason, numbered + 1)),
            Ok(taken) => {
                empty = empty_after(empty, taken.empty, ClauseNumber::at(numbered));
                offsets[numbered] = at as u32;
                numbered += 1;
                at = taken.next;
                kept = taken.kept;
            }
        }
    }
    Ok(Ended { numbered, empty })
}
