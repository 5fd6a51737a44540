// Words of tables: what a word is, its variable, which number it is, whether it is 0, the places of its literal among marks; and the word of a
// variable with a sign.
ghost use Rattle.std.specs.Prelude.{◌≡◌, ◌≤◌};
ghost use Rattle.formula.specs.Bounds.{variable_bound};
ghost use Rattle.formula.specs.Word.{word_of, is_zero, variable_of, ordinal, slot_with, slot_of, opposite, signed};

use crate::literal::Variable;

// What a word of a table is, by its sign and its range.
#[derive(Clone, Copy)]
pub enum Word {
    Zero,
    TooLarge,
    Positive(Variable),
    Negative(Variable),
}

impl Word {
    // What a word is: 0, or by its magnitude, which is a variable's number or not.
    pub fn of(word: i32) -> Word
        ensures { result ≡ word_of word }
    {
        if word == 0 {
            return Word::Zero;
        }
        match Variable::new(word.unsigned_abs() as usize) {
            Some(v) => {
                if 0 < word {
                    Word::Positive(v)
                } else {
                    Word::Negative(v)
                }
            }
            None => Word::TooLarge,
        }
    }

    // The number of a word's variable: 0 for the word 0, 1,025 for one out of range. Here and below 0 stands for none, as in the definitions, and no `Option`: what is asked
    // of each word of a clause is a number that is compared.
    pub fn variable(word: i32) -> usize
        ensures { result ≡ variable_of (word_of word) }
    {
        match Word::of(word) {
            Word::Zero => 0,
            Word::TooLarge => 1_025,
            Word::Positive(v) => v.0,
            Word::Negative(v) => v.0,
        }
    }

    // The number from 1 to 1,024 that a word is; 0 for any other word. By its sign first, and not by `of`: a search of the prefix asks it of two words an entry.
    pub fn ordinal(word: i32) -> usize
        ensures { result ≡ ordinal word }
    {
        if 0 < word {
            return match Variable::new(word.unsigned_abs() as usize) {
                Some(v) => v.0,
                None => 0,
            };
        }
        0
    }

    // Whether a word is 0, which closes a clause.
    pub fn is_zero(word: i32) -> bool
        ensures { result ≡ is_zero word }
    {
        word == 0
    }

    // The place of a word's literal among marks, two a variable, with what each sign adds; 0, which is no literal's, for any
    // other word. By the magnitude and not by a case for each sign: compiled, the loops above branch on no sign.
    fn slot_with(word: i32, plus: usize, minus: usize) -> usize
        requires { (plus ≤ 1) × (minus ≤ 1) }
        ensures { result ≡ slot_with plus minus (word_of word) }
    {
        let added = if 0 < word { plus } else { minus };
        match Variable::new(word.unsigned_abs() as usize) {
            Some(v) => 2 * v.0 + added,
            None => 0,
        }
    }

    // The place of a word's literal among marks.
    pub fn slot(word: i32) -> usize
        ensures { result ≡ slot_of (word_of word) }
    {
        Word::slot_with(word, 0, 1)
    }

    // The place of the opposite literal.
    pub fn opposite_slot(word: i32) -> usize
        ensures { result ≡ slot_of (opposite (word_of word)) }
    {
        Word::slot_with(word, 1, 0)
    }
}

// The word of a variable: its number, or its opposite.
pub fn signed_word(positive: bool, n: usize) -> i32
    requires { n ≤ variable_bound }
    ensures { result ≡ signed positive n }
{
    if positive {
        return n as i32;
    }
    -(n as i32)
}
