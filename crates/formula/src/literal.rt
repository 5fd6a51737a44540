// Variables, literals and clause numbers: three types, so that a place that expects one never takes another. Each is made by
// its constructors here and nowhere else.
ghost use Rattle.std.specs.Prelude.{◌≡◌, ◌+◌, ◌^◌, ◌<◌, ◌≤◌, pos, neg_ℤ, nat_abs};
ghost use Rattle.formula.specs.Bounds.{variable_bound, variable_fit, literal_fit, number_fit, in_range};

use crate::word::Word;

// A variable's number, 1 to 1,024. That it is one is a clause where it is needed, and no ghost field, which would ask more of those who call what asks nothing of the
// number.
#[derive(Clone, Copy, Debug, PartialEq, Eq)]
pub struct Variable(pub usize);

impl Variable {
    pub const MAX: usize = 1_024;

    // The variable of this number, if it is one's.
    pub fn new(n: usize) -> Option<Variable>
        ensures { result ≡ variable_fit (in_range n variable_bound) n }
    {
        if n < 1 {
            return None;
        }
        if n <= Variable::MAX {
            Some(Variable(n))
        } else {
            None
        }
    }

    // The variable 1, where one is due that nothing depends on.
    pub fn first() -> Variable
        ensures { result.0 ≡ 1 }
    {
        Variable(1)
    }

    // The positive literal of a variable.
    pub fn literal(self) -> Literal
        requires { self.0 ≤ variable_bound }
        ensures { result.0 ≡ pos self.0 }
    {
        Literal(self.0 as i32)
    }
}

// A clause's number: 1 to C for the input clauses; steps go on from C + 1.
#[derive(Clone, Copy, Debug, PartialEq, Eq)]
pub struct ClauseNumber(pub usize);

impl ClauseNumber {
    // The clause of this number, if it is one from 1 to `last`.
    pub fn new(n: usize, last: usize) -> Option<ClauseNumber>
        ensures { result ≡ number_fit (in_range n last) n }
    {
        if n < 1 {
            return None;
        }
        if n <= last {
            Some(ClauseNumber(n))
        } else {
            None
        }
    }

    // The number of the clause at a place, places counted from 0.
    pub fn at(place: usize) -> ClauseNumber
        requires { place + 1 < 2 ^ 64 }
        ensures { result.0 ≡ place + 1 }
    {
        ClauseNumber(place + 1)
    }
}

// A literal as a word: v for the variable v, −v for its negation.
#[derive(Clone, Copy, Debug, PartialEq, Eq)]
pub struct Literal(pub i32);

impl Literal {
    // The literal that a word is: its magnitude is a variable's number.
    pub fn new(word: i32) -> Option<Literal>
        ensures { result ≡ literal_fit (in_range (nat_abs word) variable_bound) word }
    {
        match Word::of(word) {
            Word::Zero => None,
            Word::TooLarge => None,
            Word::Positive(_) => Some(Literal(word)),
            Word::Negative(_) => Some(Literal(word)),
        }
    }

    // The opposite. The lowest 32-bit number has none, so the range test comes first.
    pub fn negated(self) -> Literal
        requires { nat_abs self.0 ≤ variable_bound }
        ensures { result.0 ≡ neg_ℤ self.0 }
    {
        Literal(-self.0)
    }
}
