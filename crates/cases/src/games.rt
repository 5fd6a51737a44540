// The evaluator: games won and lost, its own bound, and the tables' refusals ahead of it.
use caselist::show::Refused;
use caselist::words::Tables;
use evaluator::evaluation::evaluate;

// Evaluates the tables and prints the answer.
pub fn case(rt: &impl Print, name: &str, tables: &Tables) {
    print!(rt; "game, {name}: ").unwrap_or(());
    match evaluate(&tables.prefix, &tables.clauses) {
        Ok(value) => println!(rt; "{value}").unwrap_or(()),
        Err(r) => println!(rt; "{}", Refused(r)).unwrap_or(()),
    }
}
