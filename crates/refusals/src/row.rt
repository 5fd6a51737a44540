// Rows by the entry that asks for 640 bytes of scratch. The buffers lent hold 7 before; a byte of a row that is neither 0 nor 1 shows as `?`.
use anyhow::Result;
use caselist::show::{Dependents, Refused, clear_or_not, is_clear};
use caselist::words::Tables;
use dependency::answer::dependency_row_small;

// Asks for a row of so many bytes, with so many of scratch, and prints the answer; how much scratch is lent is told.
pub fn small(
    rt: &(impl Print + AllocGlobal),
    tables: &Tables,
    name: &str,
    variable: i32,
    (scratch, row): (usize, usize),
) -> Result<()> {
    print!(rt; "small row, scratch {scratch}, {name}: ").unwrap_or(());
    let mut scratch = vec![in rt.alloc(); 7u8; scratch]?;
    let mut row = vec![in rt.alloc(); 7u8; row]?;
    match dependency_row_small(
        &tables.prefix,
        &tables.clauses,
        variable,
        &mut row,
        &mut scratch,
    ) {
        Ok(()) => {
            println!(rt;
                "filled{}, scratch {}",
                Dependents(&row),
                clear_or_not(is_clear(&scratch))
            )
            .unwrap_or(());
        }
        Err(r) => {
            let clear = is_clear(&scratch) && is_clear(&row);
            println!(rt; "{}, buffers {}", Refused(r), clear_or_not(clear)).unwrap_or(());
        }
    }
    Ok(())
}
