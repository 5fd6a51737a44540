// Proof files: the refusals of the trailer and their order, and what the table for the steps then holds, which held 7 before.
// A file that really has a distance above 4 times 1,048,576, for 2 and its order, is of over 4 MiB: `bench` compares those.
use anyhow::Result;
use caselist::show::{Refused, Words, clear_or_not, is_clear};
use prooffile::file::read_proof;

// A file for a formula of so many clauses, read into a table of so many words.
pub fn case(
    rt: &(impl Print + AllocGlobal),
    name: &str,
    file: &[u8],
    (clauses, words): (usize, usize),
) -> Result<()> {
    let mut table = vec![in rt.alloc(); 7; words]?;
    print!(rt; "file, {name}: ").unwrap_or(());
    match read_proof(file, u32::try_from(clauses)?, &mut table) {
        Ok(words) => println!(rt; "read {words}, table{}", Words(&table)).unwrap_or(()),
        Err(r) => {
            let left = clear_or_not(is_clear(&table));
            println!(rt; "{}, table {left}", Refused(r)).unwrap_or(());
        }
    }
    Ok(())
}
