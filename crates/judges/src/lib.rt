// What the two judges promise together: theorems alone, in specs/.
#![tactic(auto)]
