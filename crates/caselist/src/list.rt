// A list of cases: a text of lines, a case a line, whose fields are parted by bars. A line that begins with # says what the cases behind
// it show; it and an empty line are passed over. The test programs hold their lists, and read none from a file.
ghost use Rattle.std.specs.Prelude.{ℕ, MatchResult};
ghost use Rattle.caselist.specs.Numbers.{IsPair};

use anyhow::{Result, bail};
use std::alloc::Global;

// Runs each case of a list, handed over as its fields, up to the first that fails.
pub fn run_list<F: FnMut(&[&str]) -> Result<()>>(
    alloc: Global,
    list: &str,
    mut case: F,
) -> Result<()>
    requires { F.IsAlwaysCallable case }
{
    for line in list.lines() {
        if line.is_empty() || line.starts_with('#') {
            continue;
        }
        let fields: Vec<&str> = line.split('|').collect(alloc)?;
        case(&fields)?;
    }
    Ok(())
}

// The two numbers at the end of a case, or the usual ones where it has none.
pub fn pair_or(fields: &[&str], usual: (usize, usize)) -> Result<(usize, usize)>
    ensures { MatchResult result (IsPair fields.now usual) (λ _. (pair : ℕ × ℕ) → ¬ (IsPair fields.now usual pair)) }
{
    match fields {
        [] => Ok(usual),
        [first, second] => Ok((first.parse()?, second.parse()?)),
        _ => bail!("no two numbers: {fields:?}"),
    }
}
