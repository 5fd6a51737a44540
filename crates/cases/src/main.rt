// Worked cases of text, tables, writing, rows and games, run through the library: the known positions of the specification that
// have no letter, each refusal of text and of tables and those that writing, rows and games add, and the order of refusals. The cases
// stand in the lists of lists/. Each line printed names its case and gives the answer; the file stdout beside src/ holds what the
// specification says of each. What cannot be written is passed over. What a proof and its file are refused for is in the program `refusals`.
#![tactic(auto)]

mod games;
mod lists;
mod rows;
mod tables;
mod text;
mod written;

use anyhow::{Result, bail};
use caselist::bytes::bytes;
use caselist::list::{pair_or, run_list};
use caselist::words::{Tables, words};

// A case of a text that is read.
fn run_text(rt: &(impl Print + AllocGlobal), fields: &[&str]) -> Result<()> {
    let alloc = rt.alloc();
    match fields {
        ["text", name, text, sizes @ ..] => {
            text::case(rt, name, &bytes(alloc, text)?, pair_or(sizes, (12, 6))?)
        }
        ["left", name, text, sizes @ ..] => {
            text::left(rt, name, &bytes(alloc, text)?, pair_or(sizes, (12, 6))?)
        }
        ["blank", name, count] => {
            let text = vec![in alloc; b' '; count.parse()?]?;
            text::case(rt, name, &text, (1, 1))
        }
        ["cuts", text] => text::cuts(rt, &bytes(alloc, text)?),
        ["rewritten", name, text] => written::again(rt, name, &bytes(alloc, text)?),
        _ => bail!("no case: {fields:?}"),
    }
}

// A case of any kind.
fn run_case(rt: &(impl Print + AllocGlobal), fields: &[&str]) -> Result<()> {
    let alloc = rt.alloc();
    match fields {
        ["tables", name, prefix, clauses] => {
            tables::case(rt, name, &Tables::parse(alloc, prefix, clauses)?);
            Ok(())
        }
        ["game", name, prefix, clauses] => {
            games::case(rt, name, &Tables::parse(alloc, prefix, clauses)?);
            Ok(())
        }
        ["written", name, prefix, clauses, bytes] => {
            written::case(
                rt,
                name,
                &Tables::parse(alloc, prefix, clauses)?,
                bytes.parse()?,
            )
        }
        ["long", name, prefix, bytes] => written::long(
            rt,
            name,
            &words(alloc, prefix)?,
            bytes.parse()?,
        ),
        ["row", name, prefix, clauses, variable, sizes @ ..] => {
            let tables = Tables::parse(alloc, prefix, clauses)?;
            rows::case(
                rt,
                name,
                &tables,
                variable.parse()?,
                pair_or(sizes, (8_200, 1_025))?,
            )
        }
        _ => run_text(rt, fields),
    }
}

// All cases, list by list.
fn main(rt: HostRuntime) -> Result<()> {
    for list in [
        lists::texts::LIST,
        lists::tables::LIST,
        lists::written::LIST,
        lists::rows::LIST,
        lists::games::LIST,
    ] {
        run_list(rt.alloc(), list, |fields| run_case(&rt, fields))?;
    }
    Ok(())
}
