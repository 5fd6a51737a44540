// Layer 3: the check of a step, the run over all steps, the verdict. Open to crates above besides the entries: the check of one step and
// the run.
#![tactic(auto)]

mod merge;
pub mod proof;
mod reduce;
mod resolve;
pub mod run;
pub mod step;
pub mod verdict;
