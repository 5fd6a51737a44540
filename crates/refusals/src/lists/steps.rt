// Ordinary proofs. The list says what its cases show.

pub const LIST: &str =
    r"# Steps that are refused, each reason with its place; steps that are wrong in two ways, for the order of reasons; steps that are right.
# The example's four clauses leave the number 5 to the first step.
# formula|prefix|clauses, for the proofs behind it.
# proof|name|steps.

# 13: the kind, and the 0 that closes L, looked for from the first word of L on.
formula|1 1 1  2 2 2  3 1 3  4 1 3|2 3 0 -2 4 0 -4 1 0 -1 -3 0
proof|kind 0|0 1 2 3 0
proof|kind 5|5 1 2 3 0
proof|kind -1|-1 1 2 3 0
proof|kind the lowest number|-2147483648 1 2 3 0
proof|the word 1 alone|1
proof|the word 2 alone|2
proof|1 0 0 0 0|1 0 0 0 0
proof|1 0 0 0|1 0 0 0
proof|2 0 0 0|2 0 0 0
proof|2 0 0|2 0 0
proof|words end in the statement|2 1 2 3
proof|a 0 behind a right step|2 1 2 3 0 0
proof|second step not closed|2 1 2 3 0 2 2 -2 4
proof|kind 5 and antecedents 0|5 0 0 0 0

# 14: the antecedents of a resolution.
proof|i 0|1 0 4 3 2 -1 0
proof|j 0|1 1 0 3 2 -1 0
proof|i negative|1 -1 4 3 2 -1 0
proof|j negative|1 1 -4 3 2 -1 0
proof|i the own number|1 5 4 3 2 -1 0
proof|j the own number|1 1 5 3 2 -1 0
proof|i above the own number|1 6 4 3 2 -1 0
proof|j above the own number|1 1 6 3 2 -1 0
proof|i the lowest number|1 -2147483648 4 3 2 -1 0
proof|j the lowest number|1 1 -2147483648 3 2 -1 0
proof|i the highest number|1 2147483647 4 3 2 -1 0
proof|j the highest number|1 1 2147483647 3 2 -1 0
proof|i 0 and e universal|1 0 4 2 0
proof|j the own number and e negative|1 4 5 -3 2 -1 0

# 14: the antecedent of a reduction.
proof|clause 0 reduced|2 0 2 3 0
proof|clause -1 reduced|2 -1 2 3 0
proof|the own number reduced|2 5 2 3 0
proof|a number above the own reduced|2 6 2 3 0
proof|the lowest number reduced|2 -2147483648 2 3 0
proof|the highest number reduced|2 2147483647 2 3 0
proof|clause 9 reduced by an existential|2 9 3 0
proof|the own number after a right step|2 1 2 3 0 2 6 2 0

# 15: e, a positive existential variable, in clause i and opposed in clause j.
proof|e 0|1 1 4 0 2 -1 0
proof|e negative|1 4 1 -3 2 -1 0
proof|e universal|1 1 2 2 3 4 0
proof|e unbound|1 1 4 5 2 -1 0
proof|e 1,025|1 1 4 1025 2 -1 0
proof|e the lowest number|1 1 4 -2147483648 2 -1 0
proof|e the highest number|1 1 4 2147483647 2 -1 0
proof|e not in clause i|1 2 4 3 -2 4 -1 0
proof|-e not in clause j|1 1 3 3 2 -4 1 0
proof|clauses exchanged|1 4 1 3 2 -1 0
proof|i and j the same|1 1 1 3 2 0
proof|e universal and nothing stated|1 1 2 2 0

# 15: a, a universal literal of the clause.
proof|a 0|2 1 0 2 3 0
proof|a existential|2 1 3 2 0
proof|a not in the clause|2 3 2 -4 1 0
proof|the sign of a wrong|2 1 -2 3 0
proof|a unbound|2 1 5 2 3 0
proof|a 1,025|2 1 1025 2 3 0
proof|a the lowest number|2 1 -2147483648 2 3 0
proof|a the highest number|2 1 2147483647 2 3 0
proof|a existential and nothing stated|2 1 3 0

# 16, ahead of 18 and behind 15. Both signs in L alone are 18.
formula|1 1 1  2 1 1|1 2 0 -1 -2 0
proof|both signs in the result|1 1 2 1 2 -2 0
proof|both signs in the result, one stated|1 1 2 1 2 0
proof|both signs in the result, none stated|1 1 2 1 0
proof|both signs in the result, e negative|1 2 1 -1 -2 2 0
formula|1 1 1  2 2 2|1 2 0 -1 -2 0
proof|both signs of a universal|1 1 2 1 2 -2 0

# A universal as pivot is 15: ahead of 16, and where the result would be empty.
formula|1 2 1  2 1 2|1 2 0 -1 -2 0
proof|both signs in the result, e universal|1 1 2 1 2 -2 0
formula|1 2 1|1 0 -1 0
proof|e universal, the result empty|1 1 2 1 0

# 17, ahead of 18 and behind 15: each universal here has 3 as a dependent, in block 2.
formula|1 2 1  2 2 1  3 1 2|1 2 -3 0 -1 -2 3 0
proof|blocked|2 1 1 2 -3 0
proof|blocked by the second universal|2 1 2 1 -3 0
proof|blocked, a negative|2 2 -1 -2 3 0
proof|blocked and nothing stated|2 1 1 0
proof|blocked and a stated|2 1 1 1 2 -3 0
proof|blocked and the sign of a wrong|2 1 -1 2 -3 0
proof|blocked and a existential|2 1 -3 1 2 0

# What blocks is the dependent of the clause that stands leftmost in the prefix, not the one of the lowest number, nor the clause's first.
formula|1 2 1  5 1 2  3 1 2  4 1 2|4 -3 1 5 0 -1 3 0 -1 -4 0 -5 -3 0
proof|blocked by 5, 3 and 4|2 1 1 4 -3 5 0
proof|blocked by 3 and 4, 5 resolved away|1 1 4 5 4 -3 1 0 2 5 1 4 -3 0
proof|blocked by 3|2 2 -1 3 0
proof|blocked by 4|2 3 -1 -4 0
formula|7 2 1  1024 1 2  6 1 2|6 7 -1024 0 -7 1024 0 -7 -6 0
proof|blocked by 1,024 and 6|2 1 7 6 -1024 0

# Dependents of two blocks: the outer one is told, or the only one that depends on the reduced variable.
formula|1 2 1  4 1 2  3 2 3  2 1 4|2 3 1 4 0 -1 -2 0 -1 -4 0 -3 -2 0
proof|blocked by blocks 2 and 4|2 1 1 2 3 4 0
proof|blocked by block 4, block 2 to the left|2 1 3 2 1 4 0
proof|blocked by block 4|2 2 -1 -2 0
proof|blocked by block 2|2 3 -1 -4 0
proof|blocked by block 4, the inner universal|2 4 -3 -2 0

# What does not block is not told: an existential to the left, one that does not depend, a dependent that is not in the clause.
formula|5 1 1  4 2 2  3 1 3  2 1 3|5 3 4 2 0 -4 -2 0
proof|blocked, 5 to the left and 3 independent|2 1 4 5 3 2 0
formula|1 2 1  2 1 2  3 1 2|1 2 0 -1 2 0 -2 3 0 -2 -3 0
proof|blocked, 2 resolved away|1 1 3 2 1 3 0 2 5 1 3 0

# An existential joined on one side alone, one to the left, and dependents that are resolved away first.
formula|1 2 1  2 1 2|1 2 0 -1 2 0
proof|joined on one side|2 1 1 2 0
formula|1 1 1  2 2 2|1 2 0
proof|to the left of a|2 1 2 1 0
formula|1 2 1  2 1 2  3 1 2|1 2 0 -1 2 0 -2 3 0 -2 -3 0
proof|blocked by paths over the dependent itself|2 1 1 2 0
proof|dependents resolved away|1 3 4 3 -2 0 1 1 5 2 1 0 2 6 1 0

# 18: L after a resolution, in any order, no literal twice.
formula|1 1 1  2 2 2  3 1 3  4 1 3|2 3 0 -2 4 0 -4 1 0 -1 -3 0
proof|a literal missing|1 1 4 3 2 0
proof|nothing stated|1 1 4 3 0
proof|one too many|1 1 4 3 2 -1 4 0
proof|one twice|1 1 4 3 2 -1 2 0
proof|e stated|1 1 4 3 2 -1 3 0
proof|a sign wrong|1 1 4 3 2 1 0
proof|both signs stated|1 1 4 3 2 -1 1 0
proof|the lowest number stated|1 1 4 3 2 -1 -2147483648 0
proof|the highest number stated|1 1 4 3 2 -1 2147483647 0
proof|1,025 stated|1 1 4 3 2 -1 1025 0
proof|the result stated|1 1 4 3 2 -1 0
proof|another order|1 1 4 3 -1 2 0

# 18: L after a reduction; a literal that both antecedents hold is stated once.
proof|reduced, a literal missing|2 1 2 0
proof|reduced, a stated|2 1 2 3 2 0
proof|reduced, one twice|2 1 2 3 3 0
proof|reduced, another literal|2 1 2 4 0
proof|reduced, the lowest number stated|2 1 2 3 -2147483648 0
proof|the second step's 4 made 3|2 1 2 3 0 2 2 -2 3 0 1 6 3 4 1 0 1 5 4 3 -1 0 1 7 8 1 0
formula|1 1 1  2 1 1|1 2 0 -1 2 0
proof|in both antecedents, stated once|1 1 2 1 2 0
proof|in both antecedents, stated twice|1 1 2 1 2 2 0

# Steps are judged one after the other: the earlier one decides.
formula|1 1 1  2 2 2  3 1 3  4 1 3|2 3 0 -2 4 0 -4 1 0 -1 -3 0
proof|a broken step behind a 14|1 0 4 3 0 9
proof|a broken step behind a 15|2 1 3 2 0 1
proof|a broken step behind an 18|2 1 2 0 0
proof|a wrong step behind a right one|2 1 2 3 0 2 5 3 0
proof|four steps of five|2 1 2 3 0 2 2 -2 4 0 1 6 3 4 1 0 1 5 4 3 -1 0
proof|the whole proof|2 1 2 3 0 2 2 -2 4 0 1 6 3 4 1 0 1 5 4 3 -1 0 1 7 8 1 0
proof|no steps|
formula||
proof|nothing at all|
proof|a step on no clauses|2 1 1 0
proof|a broken step on no clauses|0

# 23 for whatever stands behind an empty clause, a step's or an input clause's (02, P10); the last clause, or without steps the first empty one, is told.
formula|1 2 1|1 0
proof|an empty clause|2 1 1 0
proof|a right step behind an empty clause|2 1 1 0 2 1 1 0
proof|a lone word behind an empty clause|2 1 1 0 9
proof|a lone 0 behind an empty clause|2 1 1 0 0
proof|a broken step behind an empty clause|2 1 1 0 2 1
proof|a 14 behind an empty clause|2 1 1 0 2 3 1 0
proof|a 15 behind an empty clause|2 1 1 0 2 2 1 0
proof|an 18 behind an empty clause|2 1 1 0 2 1 1 1 0
proof|an 18 ahead of an empty clause|2 1 1 1 0 2 1 1 0
formula|1 2 1|1 0 0 0
proof|two empty input clauses|
proof|an empty input clause and a right step|2 1 1 0
proof|an empty input clause and a lone word|9
proof|an empty input clause and a wrong step|2 1 -1 0
proof|an empty input clause and a broken step|2 1
proof|the empty input clause reduced|2 2 1 0
";
