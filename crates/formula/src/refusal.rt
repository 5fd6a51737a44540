// Why and where the checker says no: the twenty reasons of 01 and 02's 23, each with its number, 17 with what blocks too, and a reason joined
// with its place. A reason more is a line in the enum and in `tagged`, in `numbers` and `table` of specs/Refusal.antt, and in the
// list of words of report/src/word.rt.
ghost use Rattle.std.specs.Prelude.{◌≡◌};
ghost use Rattle.formula.specs.Refusal.{refusal, refused_at, numbers, number, Tagged, TaggedNumber};

use crate::literal::Variable;
use scanner::position::Position;

// What blocks a reduction (02, P6): a variable, and the block of its entry in the prefix.
#[derive(Clone, Copy)]
pub struct Blocker {
    pub variable: Variable,
    pub block: usize,
}

#[derive(Clone, Copy)]
pub enum Reason {
    Headless,
    Oversized,
    NoRoom,
    BadToken,
    OutOfRange,
    BoundTwice,
    Unbound,
    Clash,
    Unfinished,
    Miscount,
    NoTrailer,
    OtherFormula,
    BrokenStep,
    NotEarlier,
    WrongPivot,
    Tautology,
    Blocked(Blocker),
    Misstated,
    NoConclusion,
    NotUniversal,
    Afterword,
}

// Bytes and words count from 0; a clause's place is its number. A place in a text has its line and its column, any other has 0 0.
#[derive(Clone, Copy)]
pub struct Refusal {
    pub reason: Reason,
    pub place: usize,
    pub line: usize,
    pub column: usize,
}

impl Refusal {
    // Every refusal that is not about text is made here.
    pub fn new(reason: Reason, place: usize) -> Refusal
        ensures { result ≡ refusal reason place }
    {
        Refusal {
            reason,
            place,
            line: 0,
            column: 0,
        }
    }

    // A refusal of a text at the position of a token, or at the end; 2 has no place.
    pub fn in_text(reason: Reason, at: Position) -> Refusal
        ensures { result ≡ refused_at at reason }
    {
        if reason.number() == 2 {
            return Refusal::new(reason, 0);
        }
        Refusal {
            reason,
            place: at.place,
            line: at.line,
            column: at.column,
        }
    }
}

// The numbers of a reason: 01's or 02's; of 17, what blocks.
#[derive(Clone, Copy)]
pub enum Numbers {
    Alone(u32),
    Blocked(Blocker),
}

impl Reason {
    // The place of its row in the table, counted from 1; of 17, what blocks.
    fn tagged(self) -> Numbers
        ensures { Tagged self result }
    {
        match self {
            Reason::Headless => Numbers::Alone(1),
            Reason::Oversized => Numbers::Alone(2),
            Reason::NoRoom => Numbers::Alone(3),
            Reason::BadToken => Numbers::Alone(4),
            Reason::OutOfRange => Numbers::Alone(5),
            Reason::BoundTwice => Numbers::Alone(6),
            Reason::Unbound => Numbers::Alone(7),
            Reason::Clash => Numbers::Alone(8),
            Reason::Unfinished => Numbers::Alone(9),
            Reason::Miscount => Numbers::Alone(10),
            Reason::NoTrailer => Numbers::Alone(11),
            Reason::OtherFormula => Numbers::Alone(12),
            Reason::BrokenStep => Numbers::Alone(13),
            Reason::NotEarlier => Numbers::Alone(14),
            Reason::WrongPivot => Numbers::Alone(15),
            Reason::Tautology => Numbers::Alone(16),
            Reason::Blocked(blocker) => Numbers::Blocked(blocker),
            Reason::Misstated => Numbers::Alone(18),
            Reason::NoConclusion => Numbers::Alone(19),
            Reason::NotUniversal => Numbers::Alone(20),
            Reason::Afterword => Numbers::Alone(23),
        }
    }

    // Its numbers.
    pub fn numbers(self) -> Numbers
        ensures { result ≡ numbers self }
    {
        self.tagged()
    }

    // Its number, 01's or 02's.
    pub fn number(self) -> u32
        ensures { (result ≡ number self) × TaggedNumber result }
    {
        match self.tagged() {
            Numbers::Alone(n) => n,
            Numbers::Blocked(_) => 17,
        }
    }
}
