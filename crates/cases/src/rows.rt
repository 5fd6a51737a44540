// Dependency rows: refusals and their order, buffers that are short or long. The buffers lent hold 7 before; a byte of a row that is
// neither 0 nor 1 shows as `?`.
use anyhow::Result;
use caselist::show::{Dependents, Refused, unless_clear};
use caselist::words::Tables;
use dependency::answer::dependency_row;

// Asks for a row of so many bytes, with so many of scratch, and prints the answer.
pub fn case(
    rt: &(impl Print + AllocGlobal),
    name: &str,
    tables: &Tables,
    variable: i32,
    (scratch, row): (usize, usize),
) -> Result<()> {
    let mut row = vec![in rt.alloc(); 7u8; row]?;
    let mut scratch = vec![in rt.alloc(); 7u8; scratch]?;
    print!(rt; "row, {name}: ").unwrap_or(());
    match dependency_row(
        &tables.prefix,
        &tables.clauses,
        variable,
        &mut row,
        &mut scratch,
    ) {
        Ok(()) => print!(rt; "filled{}", Dependents(&row)).unwrap_or(()),
        Err(r) => print!(rt;
            "{}{}",
            Refused(r),
            unless_clear(&row, ", buffer not clear")
        )
        .unwrap_or(()),
    }
    println!(rt; "{}", unless_clear(&scratch, ", buffer not clear")).unwrap_or(());
    Ok(())
}
