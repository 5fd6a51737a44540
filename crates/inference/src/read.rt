// A step is read once, into its fields. Where a field stands in the words is known here and nowhere else.
ghost use Rattle.std.specs.Prelude.{◌≡◌, ◌+◌, ◌^◌, ◌<◌, length, drop};
ghost use Rattle.inference.specs.Words.{same_word};
ghost use Rattle.inference.specs.Steps.{kind_by, family_of, read_step};
ghost use Rattle.inference.specs.Read.{kind_read, kind_is, any_kind, statement_by, statement_of, closed_at, reading_of};

use crate::clause::end_of;

// The two families of steps: 01's, and the long-distance ones, which may merge (02, P14). A proof is of one family.
#[derive(Clone, Copy)]
pub enum Family {
    Ordinary,
    LongDistance,
}

// The two kinds of step.
#[derive(Clone, Copy)]
pub enum StepKind {
    Resolution,
    Reduction,
}

// The kind that a word is, by the two words of a family, if it is one of them.
#[tactic(auto, using(crate::proofs::Signed::bits_same, crate::proofs::Signed::bits_apart))]
fn kind_by(word: i32, resolves: i32, reduces: i32) -> Option<StepKind>
    ensures { result ≡ kind_read (kind_by (same_word word resolves) (same_word word reduces)) }
{
    if word == resolves {
        return Some(StepKind::Resolution);
    }
    if word == reduces {
        return Some(StepKind::Reduction);
    }
    None
}

// The kind that a word is in a family, if it is one.
pub fn kind_of(word: i32, family: Family) -> Option<StepKind>
    ensures { result ≡ kind_is family word }
{
    match family {
        Family::Ordinary => kind_by(word, 1, 2),
        Family::LongDistance => kind_by(word, 3, 4),
    }
}

// The kind that a word is in whichever family has it, if one does.
fn any_kind(word: i32) -> Option<StepKind>
    ensures { result ≡ kind_read (any_kind word) }
{
    kind_of(word, Family::Ordinary).or(kind_of(word, Family::LongDistance))
}

// The family of a proof: that of its first step's kind, the ordinary one where there is none.
#[tactic(auto, using(crate::specs::Read::Laws::family_long, crate::specs::Read::Laws::family_ordinary, crate::specs::Read::Laws::family_none))]
pub fn family_of(steps: &[i32]) -> Family
    ensures { result ≡ family_of steps.now }
{
    if 0 < steps.len() {
        let word = steps[0];
        return match kind_of(word, Family::LongDistance) {
            Some(_) => Family::LongDistance,
            None => Family::Ordinary,
        };
    }
    Family::Ordinary
}

// Where a step of a kind that stands at `at` begins its statement L: the fourth word after its kind word in a resolution, the third in a reduction.
fn statement_by(kind: StepKind, at: usize) -> usize
    requires { at + 4 < 2 ^ 64 }
    ensures { result ≡ statement_by at kind }
{
    match kind {
        StepKind::Resolution => at + 4,
        StepKind::Reduction => at + 3,
    }
}

// The place of the first word of the statement of the step at `at`, of either family. Where no step stands, the place itself.
#[tactic(auto, using(crate::specs::Read::Laws::statement_past))]
pub fn statement_of(steps: &[i32], at: usize) -> usize
    ensures { result ≡ statement_of steps.now at }
{
    if at < steps.len() {
        let word = steps[at];
        return match any_kind(word) {
            Some(kind) => statement_by(kind, at),
            None => at,
        };
    }
    at
}

// The place after the 0 that closes the clause that begins at `from`, if one does. One pass over its words.
#[tactic(auto, using(crate::specs::Read::Laws::close_found, crate::specs::Read::Laws::close_missing))]
pub fn close_of(words: &[i32], from: usize) -> Option<usize>
    ensures { result ≡ closed_at from (drop from words.now) }
{
    let end = end_of(words, from);
    if end < words.len() {
        return Some(end + 1);
    }
    None
}

// The fields of a step.
#[derive(Clone, Copy)]
pub struct StepRead {
    pub kind: StepKind,
    pub family: Family,
    pub first: i32, // the antecedents' words
    pub second: i32, // 0 in a reduction, which has one antecedent
    pub pivot: i32, // the word of the pivot, or of the reduced literal
    pub statement: usize, // where L begins
    pub next: usize, // where the next step begins
}

// The step of a family whose first word stands at `at`, if one does: not where the kind is another, or the words end before the closing 0.
// One pass over its words.
#[tactic(auto, using(crate::specs::Read::Laws::fields_within, crate::specs::Read::Laws::fields_broken, crate::specs::Read::Laws::kind_broken))]
pub fn read_step(steps: &[i32], at: usize, family: Family) -> Option<StepRead>
    requires { at < length steps.now }
    ensures { result ≡ reading_of at (read_step family (drop at steps.now)) }
{
    let kind = kind_of(steps[at], family)?;
    let statement = statement_by(kind, at);
    let next = close_of(steps, statement)?;
    let second = match kind {
        StepKind::Resolution => steps[at + 2],
        StepKind::Reduction => 0,
    };
    Some(StepRead {
        kind,
        family,
        first: steps[at + 1],
        second,
        pivot: steps[statement - 1], // the word before L
        statement,
        next,
    })
}
