// The mathematics of quantified Boolean formulas: no code stands here; definitions are in specs/, the theorems that join them in proofs/ too.
#![tactic(auto)]
