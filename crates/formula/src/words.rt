// Clause words one after the other: what stands at a place, the reader that holds the lent words with its place, and the end
// of a clause. The reader's functions take it apart and leave the work to functions on slice and number. `clause_word` and
// `clause_end` have plain parameters, for callers elsewhere.
ghost use Rattle.std.specs.Prelude.{◌≡◌, drop};
ghost use Rattle.formula.specs.Words.{word_at, place_after, close_from};

// A word other than 0, the 0 that closes a clause, or the end of the words.
#[derive(Clone, Copy)]
pub enum ClauseWord {
    Word(i32),
    Close,
    End,
}

// What stands at a place.
pub fn word_at(words: &[i32], at: usize) -> ClauseWord
    ensures { result ≡ word_at words.now at }
{
    if at < words.len() {
        let word = words[at];
        if word == 0 {
            ClauseWord::Close
        } else {
            ClauseWord::Word(word)
        }
    } else {
        ClauseWord::End
    }
}

// The place after a word; at the end of the words there is none, and the place stays.
pub fn place_after(words: &[i32], at: usize) -> usize
    ensures { result ≡ place_after words.now at }
{
    if at < words.len() { at + 1 } else { at }
}

// The lent words and the place in them that is read next.
#[derive(Clone, Copy)]
pub struct WordReader<'a> {
    pub words: &'a [i32],
    pub at: usize,
}

// A reader that has moved on, with the word that it passed.
#[derive(Clone, Copy)]
pub struct WordRead<'a> {
    pub words: &'a [i32],
    pub at: usize,
    pub found: ClauseWord,
}

impl<'a> WordReader<'a> {
    // A reader of the words from a place on.
    pub fn new(words: &'a [i32], at: usize) -> WordReader<'a>
        ensures { (result.words ≡ words.entry) × (result.at ≡ at) }
    {
        WordReader { words, at }
    }

    // The word at its place, and the reader at the next.
    pub fn next(self) -> WordRead<'a>
        ensures { (result.words ≡ self.entry.words) × (result.at ≡ place_after self.entry.words.now self.entry.at)
            × (result.found ≡ word_at self.entry.words.now self.entry.at) }
    {
        let words = self.words;
        let at = self.at;
        let after = place_after(words, at);
        let found = word_at(words, at);
        WordRead {
            words,
            at: after,
            found,
        }
    }
}

// What stands at a place, asked of a reader.
pub fn clause_word(words: &[i32], at: usize) -> ClauseWord
    ensures { result ≡ word_at words.now at }
{
    let read = WordReader::new(words, at).next();
    read.found
}

// The end of the clause that begins at `from`: the place of its closing 0, or where the words end without one.
pub fn clause_end(words: &[i32], from: usize) -> usize
    ensures { result ≡ close_from from (drop from words.now) }
{
    let mut at = from;
    // By the reader that 01 names, asked at each place: where the clause ends is what the loop finds.
    while let ClauseWord::Word(_) = clause_word(words, at) {
        at += 1;
    }
    at
}
