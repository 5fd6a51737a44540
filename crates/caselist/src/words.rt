// The words that a field writes: decimal numbers of 32 bits, parted by blanks.
ghost use Rattle.std.specs.Prelude.{◌≡◌, ◌≤◌, ◌++◌, true, false, eqb, ltb, List, length, drop, replicate, ℤ, MatchOption, IfOk, OnOk};
ghost use Rattle.std.specs.List.{starts_with, position_or_len, before_first, after_first};
ghost use Rattle.caselist.specs.Clear.{sevens};
ghost use Rattle.caselist.specs.Tokens.{record_of, records_to, WritesRepeated, TokenWrites, FieldWrites};

use anyhow::{Result, bail};
use std::alloc::Global;

// Puts the record of a variable to the end: existential in block 1 or, in turn, existential and universal, each in a block of its own.
fn push_record(words: &mut Vec<i32>, v: i32, in_turn: bool) -> Result<()>
    ensures { OnOk result (words.new.items ≡ words.old.items ++ record_of v in_turn) }
{
    let quantifier = if in_turn && v % 2 == 0 { 2 } else { 1 };
    let block = if in_turn { v } else { 1 };
    words.extend_from_slice(&[v, quantifier, block])?;
    Ok(())
}

// Puts the records of 1, 2, 3 and on to the last.
fn push_records(words: &mut Vec<i32>, last: i32, in_turn: bool) -> Result<()>
    ensures { OnOk result (words.new.items ≡ words.old.items ++ records_to last in_turn) }
{
    for v in 1..=last {
        push_record(words, v, in_turn)?;
    }
    Ok(())
}

// Puts a word to the end so many times.
fn push_times(words: &mut Vec<i32>, word: i32, times: usize) -> Result<()>
    ensures { OnOk result (words.new.items ≡ words.old.items ++ replicate times word) }
{
    let Some(length) = words.len().checked_add(times) else {
        bail!("no room for so many words: {times}");
    };
    words.resize(length, word)?;
    Ok(())
}

// Puts the word that a text writes to the end, as often as another text says.
fn push_repeated(words: &mut Vec<i32>, times: &str, word: &str) -> Result<()>
    ensures { OnOk result ((more : List ℤ) × WritesRepeated times.now word.now more × (words.new.items ≡ words.old.items ++ more)) }
{
    push_times(words, word.parse()?, times.parse()?)
}

// What is behind the front of a token, where it begins so.
fn behind<'a>(token: &'a str, front: &str) -> Option<&'a str>
    ensures { MatchOption result (starts_with eqb token.now front.now ≡ false) (λ rest. (starts_with eqb token.now front.now ≡ true) × (rest.now ≡ drop (length front.now) token.now)) }
{
    token.strip_prefix(front)
}

// What is before the first star of a token and what is behind it.
fn at_star(token: &str) -> Option<(&str, &str)>
    ensures { let starred = ltb (position_or_len (λ b. eqb b 42) token.now) (length token.now) in MatchOption result (starred ≡ false) (λ parts. (starred ≡ true) × (parts.0.now ≡ before_first (λ b. eqb b 42) token.now) × (parts.1.now ≡ after_first (λ b. eqb b 42) token.now)) }
{
    token.split_once('*')
}

// Puts what a token writes to the end: a number; behind `n*` n times; with `e1..n` the records of 1 to n, all existential, and with
// `ea1..n` in turn existential and universal.
fn push_token(words: &mut Vec<i32>, token: &str) -> Result<()>
    ensures { OnOk result ((more : List ℤ) × TokenWrites token.now more × (words.new.items ≡ words.old.items ++ more)) }
{
    if let Some(last) = behind(token, "e1..") {
        push_records(words, last.parse()?, false)
    } else if let Some(last) = behind(token, "ea1..") {
        push_records(words, last.parse()?, true)
    } else if let Some((times, word)) = at_star(token) {
        push_repeated(words, times, word)
    } else {
        words.push(token.parse()?)?;
        Ok(())
    }
}

// The words of a field.
pub fn words(alloc: Global, field: &str) -> Result<Vec<i32>>
    ensures { IfOk result (λ v. FieldWrites field.now v.items) }
{
    let mut words = Vec::new(alloc);
    for token in field.split_whitespace() {
        push_token(&mut words, token)?;
    }
    Ok(words)
}

// Puts the words of a field to the start of a table that is lent, and answers how many: words that find no room are left out, and 0 stands for what is
// no word. It asks for no memory, and so cannot fail.
pub fn words_into(field: &str, table: &mut [i32]) -> usize
    ensures { result ≤ length table.old }
{
    let mut n = 0;
    for token in field.split_whitespace() {
        if n < table.len() {
            table[n] = token.parse().unwrap_or(0);
            n += 1;
        }
    }
    n
}

// The two tables of a formula.
#[derive(Drop)]
pub struct Tables {
    pub prefix: Vec<i32>,
    pub clauses: Vec<i32>,
}

impl Tables {
    // The tables that two fields write.
    pub fn parse(alloc: Global, prefix: &str, clauses: &str) -> Result<Tables>
        ensures { IfOk result (λ t. FieldWrites prefix.now t.prefix.items × FieldWrites clauses.now t.clauses.items) }
    {
        Ok(Tables {
            prefix: words(alloc, prefix)?,
            clauses: words(alloc, clauses)?,
        })
    }

    // Tables of so many words to lend, which hold 7, so that what was not cleared shows.
    #[tactic(auto, unfolding(crate::specs::Clear::sevens))]
    pub fn lent(alloc: Global, prefix: usize, clauses: usize) -> Result<Tables>
        ensures { IfOk result (λ t. (t.prefix.items ≡ sevens prefix) × (t.clauses.items ≡ sevens clauses)) }
    {
        Ok(Tables {
            prefix: vec![in alloc; 7; prefix]?,
            clauses: vec![in alloc; 7; clauses]?,
        })
    }
}

#[cfg(test)]
mod tests {
    use super::*;
    use std::test::Fail;

    #[test]
    fn fields_are_read(rt: HostRuntime) -> Result<(), Fail> {
        let found = words(rt.alloc(), "5 -6 3*0 e1..2 ea1..2")?;
        let wanted = [5, -6, 0, 0, 0, 1, 1, 1, 2, 1, 1, 1, 1, 1, 2, 2, 2];
        assert_eq!(rt; found.as_slice(), wanted.as_slice());
        let tables = Tables::parse(rt.alloc(), "1 2 1", "-1 0")?;
        assert_eq!(rt; tables.prefix.as_slice(), [1, 2, 1].as_slice());
        assert_eq!(rt; tables.clauses.as_slice(), [-1, 0].as_slice());
        Ok(())
    }

    #[test]
    fn words_are_put(rt: HostRuntime) -> Result<(), Fail> {
        let mut table = [7; 4];
        assert_eq!(rt; words_into("5 -6 x", &mut table), 3);
        assert_eq!(rt; table, [5, -6, 0, 7]);
        assert_eq!(rt; words_into("1 2 3 4 5", &mut table), 4);
        assert_eq!(rt; table, [1, 2, 3, 4]);
        Ok(())
    }

    #[test]
    fn tables_are_lent(rt: HostRuntime) -> Result<(), Fail> {
        let tables = Tables::lent(rt.alloc(), 2, 1)?;
        assert_eq!(rt; tables.prefix.as_slice(), [7, 7].as_slice());
        assert_eq!(rt; tables.clauses.as_slice(), [7].as_slice());
        Ok(())
    }
}
