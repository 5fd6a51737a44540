// A universal of tables that pass their check: what a row is made for.
ghost use Rattle.std.specs.Prelude.{◌≡◌, true};
ghost use Rattle.qbf.specs.Formula.{universal};
ghost use Rattle.formula.specs.Prefix.{prefix_of, quantifies};

use formula::literal::Variable;
use formula::tables::Tables;

// The tables, and a variable that is universal in their prefix.
#[derive(Clone, Copy)]
pub struct Universal<'a> {
    pub tables: Tables<'a>,
    pub variable: Variable,
    pub ghost listed: { quantifies universal (prefix_of tables.prefix.now) variable.0 ≡ true },
}
