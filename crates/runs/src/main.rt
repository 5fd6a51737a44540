// The two programs run on pairs of files of data/: each pair is named, then come the first program's line and the second
// program's lines. The file stdout holds what 01 and 02 say of each, worked out without the programs.
//
// Not here, since files of 65,536 bytes cannot have it: more than 16,384 step words (3 at 0) and a distance above 4 × 1,048,576
// (2), for a proof file has at most 16,381 words ahead of its trailer and a distance past its start is 11; more than 16,384
// numbered clauses (3), for a step has at least 4 words, so that there are at most 8,192 + 4,095 of them; and more than 65,536
// clause words (2), for each takes two bytes of the text. No program asks for a row of anything but a universal (20), 3,072 words hold every
// completed prefix (3), and no text leaves a variable unbound (7).
#![tactic(auto)]

mod pairs;

use anyhow::{Result, bail};
use caselist::list::run_list;
use files::print_first;
use pairs::PAIRS;
use programs::{check_files, dependency_file};
use std::rt::Files;

// Prints the pair's names, then the first program's line and the second program's lines.
fn run(rt: &(impl Files + Print + Eprint), formula: &str, proof: &str) {
    for part in [formula, ", ", proof, "\n"] {
        print_first(rt, part.as_bytes(), part.len());
    }
    check_files(rt, formula.as_bytes(), proof.as_bytes());
    dependency_file(rt, formula.as_bytes());
}

// Both programs on each pair.
fn main(rt: HostRuntime) -> Result<()> {
    run_list(rt.alloc(), PAIRS, |fields| match fields {
        [formula, proof] => {
            run(&rt, formula, proof);
            Ok(())
        }
        _ => bail!("no pair: {fields:?}"),
    })
}
