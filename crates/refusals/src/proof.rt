// The checks of a proof, by the entry that asks for 8,200 bytes of scratch and the one that asks for 640. The buffers lent hold 7 before.
use anyhow::Result;
use caselist::show::{Refused, clear_or_not, is_clear};
use caselist::words::Tables;
use checker::proof::{check_proof, check_proof_small};
use checker::verdict::Verdict;

// Prints what an entry answers of a proof in so many bytes of scratch and so many starts.
fn judged<'a, F: FnOnce(&[i32], &'a [i32], &'a [i32], &mut [u8], &mut [u32]) -> Verdict>(
    rt: &(impl Print + AllocGlobal),
    tables: &'a Tables,
    steps: &'a [i32],
    sizes: (usize, usize),
    entry: F,
) -> Result<()>
    requires { F.IsAlwaysCallable entry }
{
    let (scratch, starts) = sizes;
    let mut scratch = vec![in rt.alloc(); 7u8; scratch]?;
    let mut starts = vec![in rt.alloc(); 7u32; starts]?;
    match entry(
        &tables.prefix,
        &tables.clauses,
        steps,
        &mut scratch,
        &mut starts,
    ) {
        Ok(accepted) => {
            let (empty, steps) = (accepted.empty.0, accepted.steps);
            print!(rt; "accepted {empty} {steps}").unwrap_or(());
        }
        Err(r) => print!(rt; "{}", Refused(r)).unwrap_or(()),
    }
    let clear = is_clear(&scratch) && is_clear(&starts);
    println!(rt; ", buffers {}", clear_or_not(clear)).unwrap_or(());
    Ok(())
}

// A proof by the entry that asks for 8,200 bytes.
pub fn large(
    rt: &(impl Print + AllocGlobal),
    tables: &Tables,
    name: &str,
    steps: &[i32],
    sizes: (usize, usize),
) -> Result<()> {
    print!(rt; "proof, {name}: ").unwrap_or(());
    judged(rt, tables, steps, sizes, check_proof)
}

// A proof by the entry that asks for 640 bytes; how many it is lent is told.
pub fn small(
    rt: &(impl Print + AllocGlobal),
    tables: &Tables,
    name: &str,
    steps: &[i32],
    sizes: (usize, usize),
) -> Result<()> {
    print!(rt; "small proof, scratch {}, {name}: ", sizes.0).unwrap_or(());
    judged(rt, tables, steps, sizes, check_proof_small)
}
