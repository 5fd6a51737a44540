// Reading: texts that are read, with the whole of both tables, and texts that are refused.
use anyhow::Result;
use caselist::show::{Refused, Words, unless_clear};
use caselist::words::Tables;
use formula::read::read_formula;

// Prints what reading into the tables lent answers, to the end of the line.
pub fn reading(rt: &impl Print, text: &[u8], lent: &mut Tables) {
    let prefix = lent.prefix.as_mut_slice();
    let clauses = lent.clauses.as_mut_slice();
    match read_formula(text, prefix, clauses) {
        Ok(filled) => {
            println!(rt;
                "read {} {} {}, prefix{}, clauses{}",
                filled.prefix_used,
                filled.clauses_used,
                filled.clauses,
                Words(prefix),
                Words(clauses)
            )
            .unwrap_or(());
        }
        Err(r) => {
            println!(rt;
                "{}{}{}",
                Refused(r),
                unless_clear(prefix, ", table not clear"),
                unless_clear(clauses, ", table not clear")
            )
            .unwrap_or(());
        }
    }
}

// Reads a text into tables of so many words, and gives them back.
fn read(
    rt: &(impl Print + AllocGlobal),
    name: &str,
    text: &[u8],
    (prefix, clauses): (usize, usize),
) -> Result<Tables> {
    let mut lent = Tables::lent(rt.alloc(), prefix, clauses)?;
    print!(rt; "text, {name}: ").unwrap_or(());
    reading(rt, text, &mut lent);
    Ok(lent)
}

// A text read into tables of so many words.
pub fn case(
    rt: &(impl Print + AllocGlobal),
    name: &str,
    text: &[u8],
    words: (usize, usize),
) -> Result<()> {
    read(rt, name, text, words)?;
    Ok(())
}

// The same, and both tables whole, whatever the answer was.
pub fn left(
    rt: &(impl Print + AllocGlobal),
    name: &str,
    text: &[u8],
    words: (usize, usize),
) -> Result<()> {
    let tables = read(rt, name, text, words)?;
    println!(rt;
        "text, the tables then:{}{}",
        Words(&tables.prefix),
        Words(&tables.clauses)
    )
    .unwrap_or(());
    Ok(())
}

// A text cut at each byte.
pub fn cuts(rt: &(impl Print + AllocGlobal), text: &[u8]) -> Result<()> {
    for n in 0..=text.len() {
        print!(rt; "text cut at {n}: ").unwrap_or(());
        reading(rt, &text[..n], &mut Tables::lent(rt.alloc(), 4, 3)?);
    }
    Ok(())
}
