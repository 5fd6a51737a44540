// The prefix as it was before records, and that tables of records answer as it did: theorems alone.
#![tactic(auto)]
