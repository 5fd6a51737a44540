// What the check of a proof answers.
use formula::literal::ClauseNumber;
use formula::refusal::Refusal;

// Of an accepted proof, the first empty clause's number and the number of steps.
#[derive(Clone, Copy, Debug, PartialEq, Eq)]
pub struct Accepted {
    pub empty: ClauseNumber,
    pub steps: usize,
}

// Accepted, or the refusal.
pub type Verdict = Result<Accepted, Refusal>;
