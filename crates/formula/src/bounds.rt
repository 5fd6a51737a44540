// The bounds on lengths and counts: one type of numbers up to a bound, with a constructor that refuses, and for each bound a name and the constant.
// A value made by `new` is within its bound. The bound on a variable's number stands with its type, in literal.rt.
ghost use Rattle.std.specs.Prelude.{◌≡◌};
ghost use Rattle.formula.specs.Bounds.{at_most};

// A number that is at most MAX. No ghost field says so: `at_most`, by which the constructor is stated, would have to hold the proof in each value.
#[derive(Clone, Copy, Debug, PartialEq, Eq)]
pub struct AtMost<const MAX: usize>(pub usize);

impl<const MAX: usize> AtMost<MAX> {
    // The number, if it is within the bound.
    pub fn new(n: usize) -> Option<AtMost<MAX>>
        ensures { result ≡ at_most MAX n }
    {
        if n <= MAX { Some(AtMost(n)) } else { None }
    }
}

// Each bound: its number, the name of its instance, and the instance's constant, which is not the generic type's, since of that no proof is told what it is.

// How many bytes a text has.
pub const TEXT_BYTES: usize = 1_048_576;

pub type TextLength = AtMost<TEXT_BYTES>;

impl AtMost<TEXT_BYTES> {
    pub const MAX: usize = TEXT_BYTES;
}

// How many words a prefix has, three an entry.
pub const PREFIX_WORDS: usize = 3_072;

pub type PrefixLength = AtMost<PREFIX_WORDS>;

impl AtMost<PREFIX_WORDS> {
    pub const MAX: usize = PREFIX_WORDS;
}

// How many words a clause table has.
pub const MATRIX_WORDS: usize = 65_536;

pub type MatrixLength = AtMost<MATRIX_WORDS>;

impl AtMost<MATRIX_WORDS> {
    pub const MAX: usize = MATRIX_WORDS;
}

// How many words the steps of a proof have: as many as a text has bytes, so that it is the same instance.
pub const STEP_WORDS: usize = 1_048_576;

pub type ProofLength = AtMost<STEP_WORDS>;

// How many variables a prefix lists, or a header announces.
pub const VARIABLE_COUNT: usize = 1_024;

pub type VariableCount = AtMost<VARIABLE_COUNT>;

impl AtMost<VARIABLE_COUNT> {
    pub const MAX: usize = VARIABLE_COUNT;
}

// How many input clauses a table holds, or a header announces.
pub const CLAUSE_COUNT: usize = 8_192;

pub type ClauseCount = AtMost<CLAUSE_COUNT>;

impl AtMost<CLAUSE_COUNT> {
    pub const MAX: usize = CLAUSE_COUNT;
}

// How many variables a game has that the evaluator plays, which names the instance.
pub const GAME_VARIABLES: usize = 16;

impl AtMost<GAME_VARIABLES> {
    pub const MAX: usize = GAME_VARIABLES;
}
