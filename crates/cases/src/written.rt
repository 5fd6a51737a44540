// Writing: the text, read back; room to the byte; the tables' refusals. The text lent holds 7 before.
use crate::text;
use anyhow::Result;
use caselist::show::{Refused, unless_clear};
use caselist::words::Tables;
use formula::read::read_formula;
use formula::write::write_formula;

// What was written, and what reading it gives.
fn read_back(rt: &(impl Print + AllocGlobal), text: &[u8]) -> Result<()> {
    rt.write_all(text).unwrap_or(());
    print!(rt; "read back: ").unwrap_or(());
    text::reading(rt, text, &mut Tables::lent(rt.alloc(), 13, 13)?);
    Ok(())
}

// Writes the tables into so many bytes.
pub fn case(
    rt: &(impl Print + AllocGlobal),
    name: &str,
    tables: &Tables,
    bytes: usize,
) -> Result<()> {
    let mut text = vec![in rt.alloc(); 7u8; bytes]?;
    print!(rt; "written, {name}: ").unwrap_or(());
    match write_formula(&tables.prefix, &tables.clauses, &mut text) {
        Ok(used) => {
            println!(rt;
                "{used}{}",
                unless_clear(&text[used..], ", buffer not clear")
            )
            .unwrap_or(());
            read_back(rt, &text[..used])
        }
        Err(r) => {
            println!(rt;
                "{}{}",
                Refused(r),
                unless_clear(&text, ", buffer not clear")
            )
            .unwrap_or(());
            Ok(())
        }
    }
}

// A text read, and its tables written: what is written speaks of the completed prefix.
pub fn again(rt: &(impl Print + AllocGlobal), name: &str, text: &[u8]) -> Result<()> {
    let mut read = Tables::lent(rt.alloc(), 12, 6)?;
    match read_formula(text, &mut read.prefix, &mut read.clauses) {
        Ok(filled) => {
            read.prefix.truncate(filled.prefix_used);
            read.clauses.truncate(filled.clauses_used);
            case(rt, name, &read, 64)
        }
        Err(r) => {
            println!(rt; "{}", Refused(r)).unwrap_or(());
            Ok(())
        }
    }
}

// Says whether a prefix alone comes back from its text.
fn same_prefix(rt: &(impl Print + AllocGlobal), prefix: &[i32], text: &[u8]) -> Result<()> {
    let mut read = Tables::lent(rt.alloc(), prefix.len(), 0)?;
    match read_formula(text, &mut read.prefix, &mut read.clauses) {
        Ok(filled) => {
            let same = if read.prefix.as_slice() == prefix {
                ", the same"
            } else {
                ""
            };
            println!(rt; ", read back {}{same}", filled.prefix_used).unwrap_or(());
        }
        Err(r) => println!(rt; "{}", Refused(r)).unwrap_or(()),
    }
    Ok(())
}

// A prefix alone, too long to be shown, written into so many bytes and read back.
pub fn long(
    rt: &(impl Print + AllocGlobal),
    name: &str,
    prefix: &[i32],
    bytes: usize,
) -> Result<()> {
    let mut text = vec![in rt.alloc(); 7u8; bytes]?;
    print!(rt; "written, {name}: ").unwrap_or(());
    match write_formula(prefix, &[], &mut text) {
        Ok(used) => {
            print!(rt;
                "{used}{}",
                unless_clear(&text[used..], ", buffer not clear")
            )
            .unwrap_or(());
            same_prefix(rt, prefix, &text[..used])
        }
        Err(r) => {
            println!(rt; "{}", Refused(r)).unwrap_or(());
            Ok(())
        }
    }
}
