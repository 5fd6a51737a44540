// The check of tables: each of its refusals with its place, and the bounds.
use caselist::show::Refused;
use caselist::words::Tables;
use formula::tables::check_tables;

// Checks the tables and prints the answer.
pub fn case(rt: &impl Print, name: &str, tables: &Tables) {
    print!(rt; "tables, {name}: ").unwrap_or(());
    match check_tables(&tables.prefix, &tables.clauses) {
        Ok(counts) => println!(rt; "admitted {} {}", counts.variables, counts.clauses).unwrap_or(
            (),
        ),
        Err(r) => println!(rt; "{}", Refused(r)).unwrap_or(()),
    }
}
