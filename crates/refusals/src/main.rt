// Worked cases of what a proof file and a proof are refused for: each reason with its place, every order of reasons that the
// specification names but that of 2 in a trailer (lists/files), and the cases beside them that are read or accepted, for ordinary proofs
// (lists/steps) and long-distance ones (lists/long); what comes before the steps (lists/buffers); and the entries that ask for 640 bytes of
// scratch, for a proof and for a row (lists/small). Each line printed names its case, gives the answer and tells whether the buffers lent
// were left wholly 0, of a row that was filled the scratch; the file stdout beside src/ was worked out from the specification.
// What cannot be written is passed over.
#![tactic(auto)]

mod file;
mod lists;
mod proof;
mod row;

use anyhow::{Result, bail};
use caselist::bytes::bytes;
use caselist::list::{pair_or, run_list};
use caselist::words::{Tables, words};

// A proof and a row by the small entries, for each of the lengths of scratch that a field writes.
fn run_both(
    rt: &(impl Print + AllocGlobal),
    tables: &Tables,
    name: &str,
    steps: &[i32],
    variable: i32,
    scratch: &str,
) -> Result<()> {
    for bytes in scratch.split(' ') {
        let bytes = bytes.parse()?;
        proof::small(rt, tables, name, steps, (bytes, 16))?;
        row::small(rt, tables, name, variable, (bytes, 1_025))?;
    }
    Ok(())
}

// A case of any kind, one of a proof or a row on these tables.
fn run_case(rt: &(impl Print + AllocGlobal), tables: &Tables, fields: &[&str]) -> Result<()> {
    let alloc = rt.alloc();
    match fields {
        ["file", name, file, sizes @ ..] => file::case(
            rt,
            name,
            &bytes(alloc, file)?,
            pair_or(sizes, (4, 4))?,
        ),
        ["proof", name, steps, sizes @ ..] => {
            proof::large(
                rt,
                tables,
                name,
                &words(alloc, steps)?,
                pair_or(sizes, (8_200, 16))?,
            )
        }
        ["small proof", name, steps, sizes @ ..] => {
            proof::small(
                rt,
                tables,
                name,
                &words(alloc, steps)?,
                pair_or(sizes, (640, 16))?,
            )
        }
        ["small row", name, variable, sizes @ ..] => {
            row::small(
                rt,
                tables,
                name,
                variable.parse()?,
                pair_or(sizes, (640, 1_025))?,
            )
        }
        ["both", name, steps, variable, scratch] => {
            run_both(
                rt,
                tables,
                name,
                &words(alloc, steps)?,
                variable.parse()?,
                scratch,
            )
        }
        _ => bail!("no case: {fields:?}"),
    }
}

// All cases, list by list. A list's line of a formula gives the tables for the cases behind it.
fn main(rt: HostRuntime) -> Result<()> {
    let alloc = rt.alloc();
    for list in [
        lists::files::LIST,
        lists::buffers::LIST,
        lists::steps::LIST,
        lists::long::LIST,
        lists::small::LIST,
    ] {
        let mut tables = Tables::lent(alloc, 0, 0)?;
        run_list(alloc, list, |fields| match fields {
            ["formula", prefix, clauses] => {
                tables = Tables::parse(alloc, prefix, clauses)?;
                Ok(())
            }
            _ => run_case(&rt, &tables, fields),
        })?;
    }
    Ok(())
}
