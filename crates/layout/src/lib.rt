// What a formula's text is, said apart from the reader, and that the reader agrees: theorems alone.
#![tactic(auto)]
