// Where every refusal stands in a text, or that it stands in none: theorems alone, in specs/.
#![tactic(auto)]
