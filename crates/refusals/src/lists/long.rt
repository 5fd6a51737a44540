// Long-distance proofs. The list says what its cases show.

pub const LIST: &str =
    r"# Steps of long-distance proofs, kinds 3 and 4 (02, P14), in the order of what refuses them: reading and families, antecedents, pivots,
# statements, opposed pairs across the antecedents, pairs that an antecedent holds whole, reductions of both signs, the end.
# The example's four clauses leave the number 5 to the first step.
# formula|prefix|clauses, for the proofs behind it.
# proof|name|steps.

# 13: the kind, and the 0 that closes L, looked for from the first word of L on.
formula|1 1 1  2 2 2  3 1 3  4 1 3|2 3 0 -2 4 0 -4 1 0 -1 -3 0
proof|the word 3 alone|3
proof|the word 4 alone|4
proof|3 0 0 0 0|3 0 0 0 0
proof|3 0 0 0|3 0 0 0
proof|4 0 0 0|4 0 0 0
proof|4 0 0|4 0 0
proof|kind 3, words end in the statement|3 1 4 3 2 -1
proof|kind 4, words end in the statement|4 1 2 3
proof|a 0 behind kind 4|4 1 2 3 0 0
proof|kind -3|-3 1 4 3 2 -1 0
proof|kind -4|-4 1 2 3 0

# 13: a kind of the family that the first step is not of; 3 and 4 go together.
proof|kind 1 behind kind 3|3 1 4 3 2 -1 0 1 1 4 3 2 -1 0
proof|kind 2 behind kind 3|3 1 4 3 2 -1 0 2 1 2 3 0
proof|kind 1 behind kind 4|4 1 2 3 0 1 1 4 3 2 -1 0
proof|kind 2 behind kind 4|4 1 2 3 0 2 2 -2 4 0
proof|kind 3 behind kind 1|1 1 4 3 2 -1 0 3 1 4 3 2 -1 0
proof|kind 4 behind kind 1|1 1 4 3 2 -1 0 4 1 2 3 0
proof|kind 3 behind kind 2|2 1 2 3 0 3 1 4 3 2 -1 0
proof|kind 4 behind kind 2|2 1 2 3 0 4 2 -2 4 0
proof|kind 5 behind kind 3|3 1 4 3 2 -1 0 5 1 2 3 0
proof|kind 0 behind kind 4|4 1 2 3 0 0 1 2 3 0
proof|kind 4 behind kind 3|3 1 4 3 2 -1 0 4 1 2 3 0
proof|kind 3 behind kind 4|4 1 2 3 0 3 5 4 3 -1 0
proof|the third step of the other family|4 1 2 3 0 4 2 -2 4 0 1 6 3 4 1 0
proof|the last step of the other family|4 1 2 3 0 4 2 -2 4 0 3 6 3 4 1 0 3 5 4 3 -1 0 1 7 8 1 0

# A wrong first step decides ahead of the other family; that is 13 ahead of whatever else is wrong with its own step.
proof|a 14 ahead of the other family|3 0 4 3 2 -1 0 1 1 4 3 2 -1 0
proof|a 15 ahead of the other family|4 1 3 2 0 2 1 2 3 0
proof|an 18 ahead of the other family|4 1 2 0 2 1 2 3 0
proof|kind 5 ahead of kind 3|5 1 2 3 0 3 1 4 3 2 -1 0
proof|the other family and antecedents 0|3 1 4 3 2 -1 0 1 0 0 0 0
proof|the other family and a existential|2 1 2 3 0 4 1 3 2 0
proof|the other family and misstated|1 1 4 3 2 -1 0 3 1 4 3 2 0
proof|the other family and not closed|4 1 2 3 0 2 2 -2 4

# 14: the antecedents, ahead of the pivot.
proof|kind 3, i 0|3 0 4 3 2 -1 0
proof|kind 3, j negative|3 1 -4 3 2 -1 0
proof|kind 3, i above the own number|3 6 4 3 2 -1 0
proof|kind 3, j the own number|3 1 5 3 2 -1 0
proof|kind 3, i the lowest number|3 -2147483648 4 3 2 -1 0
proof|kind 3, j the highest number|3 1 2147483647 3 2 -1 0
proof|kind 3, i 0 and e universal|3 0 4 2 0
proof|kind 4, clause 0|4 0 2 3 0
proof|kind 4, the own number|4 5 2 3 0
proof|kind 4, the lowest number|4 -2147483648 2 3 0
proof|kind 4, the highest number|4 2147483647 2 3 0
proof|kind 4, clause 9 by an existential|4 9 3 0

# 15: e, a positive existential variable, in clause i and opposed in clause j.
proof|kind 3, e 0|3 1 4 0 2 -1 0
proof|kind 3, e negative|3 4 1 -3 2 -1 0
proof|kind 3, e universal|3 1 2 2 3 4 0
proof|kind 3, e unbound|3 1 4 5 2 -1 0
proof|kind 3, e 1,025|3 1 4 1025 2 -1 0
proof|kind 3, e the lowest number|3 1 4 -2147483648 2 -1 0
proof|kind 3, e the highest number|3 1 4 2147483647 2 -1 0
proof|kind 3, e not in clause i|3 2 4 3 -2 4 -1 0
proof|kind 3, -e not in clause j|3 1 3 3 2 -4 1 0
proof|kind 3, clauses exchanged|3 4 1 3 2 -1 0
proof|kind 3, i and j the same|3 1 1 3 2 0
proof|kind 3, e universal and nothing stated|3 1 2 2 0

# 15: a, a universal literal of the clause, of a sign that is there.
proof|kind 4, a 0|4 1 0 2 3 0
proof|kind 4, a existential|4 1 3 2 0
proof|kind 4, a not in the clause|4 3 2 -4 1 0
proof|kind 4, -2 where 2 alone is|4 1 -2 3 0
proof|kind 4, 2 where -2 alone is|4 2 2 4 0
proof|kind 4, a unbound|4 1 5 2 3 0
proof|kind 4, a 1,025|4 1 1025 2 3 0
proof|kind 4, a the lowest number|4 1 -2147483648 2 3 0
proof|kind 4, a the highest number|4 1 2147483647 2 3 0
proof|kind 4, a existential and nothing stated|4 1 3 0
proof|kind 4, a gone already|4 1 2 3 0 4 5 2 3 0
proof|kind 4, 2 reduced|4 1 2 3 0
proof|kind 4, -2 reduced|4 2 -2 4 0

# 18 where nothing is opposed, as with kinds 1 and 2; the example's proof in kinds 3 and 4.
proof|kind 3, the result stated|3 1 4 3 2 -1 0
proof|kind 3, a literal missing|3 1 4 3 2 0
proof|kind 3, one twice|3 1 4 3 2 -1 2 0
proof|kind 3, e stated|3 1 4 3 2 -1 3 0
proof|kind 3, a pair stated that is not there|3 1 4 3 2 -1 -2 0
proof|kind 3, the lowest number stated|3 1 4 3 2 -1 -2147483648 0
proof|kind 3, 1,025 stated|3 1 4 3 2 -1 1025 0
proof|kind 4, a literal missing|4 1 2 0
proof|kind 4, a stated|4 1 2 3 2 0
proof|kind 4, the other sign stated|4 1 2 3 -2 0
proof|kind 4, one twice|4 1 2 3 3 0
proof|kind 4, the lowest number stated|4 1 2 3 -2147483648 0
proof|the whole proof in kinds 3 and 4|4 1 2 3 0 4 2 -2 4 0 3 6 3 4 1 0 3 5 4 3 -1 0 3 7 8 1 0

# Two universals merged, right of a pivot whose number is above theirs: both signs of each are stated. For kind 1 they are 16.
formula|9 1 1  2 2 2  7 2 2|9 2 7 0 -9 -2 -7 0
proof|two merged|3 1 2 9 2 7 -2 -7 0
proof|two merged, another order|3 1 2 9 -7 2 -2 7 0
proof|two merged, one sign missing|3 1 2 9 2 -2 7 0
proof|two merged, the signs of j missing|3 1 2 9 2 7 0
proof|two merged, one pair missing|3 1 2 9 2 -2 0
proof|two merged, nothing stated|3 1 2 9 0
proof|two merged, one sign twice|3 1 2 9 2 7 -2 -7 -2 0
proof|two merged, one sign twice for the other|3 1 2 9 2 7 2 -7 0
proof|two merged, the pivot stated|3 1 2 9 2 7 -2 -7 9 0
proof|two merged, clauses exchanged|3 2 1 9 2 7 -2 -7 0
proof|kind 1 over the same clauses|1 1 2 9 2 7 -2 -7 0
proof|kind 1 over the same clauses, one sign of each stated|1 1 2 9 2 7 0
proof|two merged and both removed|3 1 2 9 2 7 -2 -7 0 4 3 2 7 -7 0 4 4 -7 0
proof|two merged, one removed and a sign of the other|3 1 2 9 2 7 -2 -7 0 4 3 2 7 0

# 16 for a universal to the left, whichever number is higher, and for an existential on either side; a universal further right merges.
formula|9 2 1  2 1 2|2 9 0 -2 -9 0
proof|a universal of a higher number to the left|3 1 2 2 9 -9 0
formula|2 2 1  9 1 2|9 -2 0 -9 2 0
proof|a universal of a lower number to the left|3 1 2 9 2 -2 0
formula|1 1 1  2 2 2  3 1 3  4 2 4|1 -4 0 -1 4 0
proof|a universal three blocks to the right|3 1 2 1 4 -4 0
formula|1 1 1  2 2 2  3 1 3|1 3 0 -1 -3 0
proof|an existential to the right|3 1 2 1 3 -3 0
proof|an existential to the left|3 1 2 3 1 -1 0
formula|1 1 1  3 1 1|1 3 0 -1 -3 0
proof|an existential behind the pivot in its block|3 1 2 1 3 -3 0
proof|an existential before the pivot in its block|3 1 2 3 1 -1 0

# Two opposed pairs, of which one or none is allowed; a literal that both hold is no pair.
formula|2 2 1  1 1 2  3 2 3|1 2 3 0 -1 -2 -3 0
proof|a pair to the left and one to the right|3 1 2 1 2 3 -2 -3 0
formula|2 2 1  1 1 2  3 2 3|1 3 2 0 -1 -3 -2 0
proof|a pair to the right and one to the left|3 1 2 1 3 2 -3 -2 0
formula|2 2 1  1 1 2  3 2 3|1 2 3 0 -1 2 -3 0
proof|one sign to the left in both, a pair to the right|3 1 2 1 2 3 -3 0
proof|one sign to the left in both, stated twice|3 1 2 1 2 2 3 -3 0
formula|1 1 1  3 2 2  2 1 3|1 3 2 0 -1 -3 -2 0
proof|a universal and an existential to the right|3 1 2 1 3 2 -3 -2 0
proof|a universal and an existential to the left|3 1 2 2 1 3 -1 -3 0

# 13, 14 and 15 ahead of 16, and 16 ahead of 18.
formula|2 2 1  1 1 2|1 2 0 -1 -2 0
proof|a pair to the left, not closed|3 1 2 1 2 -2
proof|a pair to the left, j the own number|3 1 3 1 2 -2 0
proof|a pair to the left, clauses exchanged|3 2 1 1 2 -2 0
proof|a pair to the left, e negative|3 2 1 -1 2 -2 0
proof|a pair to the left, e universal|3 1 2 2 1 -1 0
proof|a pair to the left, one sign stated|3 1 2 1 2 0
proof|a pair to the left, nothing stated|3 1 2 1 0

# A pair that clause i holds whole, from a merge on 1. The pivot 2 stands left of it, 4 right.
formula|1 1 1  2 1 1  3 2 2  4 1 3|1 3 2 4 0 -1 -3 0 -2 3 0 -4 -3 0 -4 0
proof|kind 1 for the merge|1 1 2 1 3 2 4 -3 0
proof|whole in i, one sign in j, pivot left|3 1 2 1 3 2 4 -3 0 3 6 3 2 3 -3 4 0
proof|whole in i, one sign in j, one stated|3 1 2 1 3 2 4 -3 0 3 6 3 2 3 4 0
proof|whole in i, one sign in j, pivot right|3 1 2 1 3 2 4 -3 0 3 6 4 4 3 -3 2 0
proof|whole in i, one sign in j, pivot right, one stated|3 1 2 1 3 2 4 -3 0 3 6 4 4 3 2 0
proof|whole in i, none in j, pivot right|3 1 2 1 3 2 4 -3 0 3 6 5 4 3 -3 2 0
proof|whole in i, none in j, one stated|3 1 2 1 3 2 4 -3 0 3 6 5 4 3 2 0
proof|whole in i, none in j, pivot left|3 1 2 1 3 2 4 -3 0 4 3 3 -2 0 3 6 7 2 3 -3 4 0

# The same with clauses i and j exchanged, and the sign that stands alone opposed.
formula|1 1 1  2 1 1  3 2 2  4 1 3|1 3 -2 -4 0 -1 -3 0 2 -3 0 4 3 0 4 0
proof|whole in j, one sign in i, pivot left|3 1 2 1 3 -2 -4 -3 0 3 3 6 2 3 -3 -4 0
proof|whole in j, one sign in i, one stated|3 1 2 1 3 -2 -4 -3 0 3 3 6 2 -3 -4 0
proof|whole in j, one sign in i, pivot right|3 1 2 1 3 -2 -4 -3 0 3 4 6 4 3 -3 -2 0
proof|whole in j, none in i, pivot right|3 1 2 1 3 -2 -4 -3 0 3 5 6 4 3 -3 -2 0
proof|whole in j, none in i, one stated twice|3 1 2 1 3 -2 -4 -3 0 3 5 6 4 3 -3 -2 -3 0
proof|whole in j, none in i, pivot left|3 1 2 1 3 -2 -4 -3 0 4 3 -3 2 0 3 7 6 2 3 -3 -4 0

# A pair that both clauses hold whole.
formula|1 1 1  2 1 1  3 2 2  4 1 3|1 3 2 4 0 -1 -3 0 1 3 -2 0 1 3 -4 0
proof|whole in both, pivot left|3 1 2 1 3 2 4 -3 0 3 3 2 1 3 -2 -3 0 3 5 6 2 3 -3 4 0
proof|whole in both, one stated twice|3 1 2 1 3 2 4 -3 0 3 3 2 1 3 -2 -3 0 3 5 6 2 3 -3 4 3 0
proof|whole in both, pivot right|3 1 2 1 3 2 4 -3 0 3 4 2 1 3 -4 -3 0 3 5 6 4 3 -3 2 0

# A whole pair carried over 4 beside another universal, opposed or not; one that an inner pivot does not pass, and passes once it is removed.
formula|1 1 1  3 2 2  5 2 2  4 1 3|1 3 5 4 0 -1 -3 0 -4 -5 0
proof|one pair whole, another opposed to the left|3 1 2 1 3 5 4 -3 0 3 4 3 4 3 -3 5 -5 0
formula|1 1 1  3 2 2  5 2 2  4 1 3|1 3 5 4 0 -1 -3 0 -4 5 0
proof|one pair whole, another's sign in both|3 1 2 1 3 5 4 -3 0 3 4 3 4 3 -3 5 0
formula|1 1 1  2 2 2  3 1 3|1 2 3 0 -1 -2 0 -3 2 0
proof|a merged pair at an inner pivot|3 1 2 1 2 -2 3 0 3 4 3 3 2 -2 0
proof|a merged pair removed ahead of an inner pivot|3 1 2 1 2 -2 3 0 4 4 2 3 0 3 5 3 3 2 0 4 6 2 0

# What is right of one pivot is forgotten at the next, which stands further in or further out.
formula|1 1 1  2 2 2  3 1 3  4 2 4|1 2 3 4 0 -1 -2 0 -3 -4 0 -3 -2 0
proof|inner pivot, the pair to its right|3 1 3 3 1 2 4 -4 0
proof|inner pivot, the pair to its left|3 1 4 3 1 2 -2 4 0
proof|outer pivot, then inner|3 1 2 1 2 -2 3 4 0 3 1 4 3 1 2 -2 4 0
proof|outer pivot, a reduction, then inner|3 1 2 1 2 -2 3 4 0 4 1 4 1 2 3 0 3 6 4 3 1 2 -2 0
proof|inner pivot, then outer|3 1 3 3 1 2 4 -4 0 3 1 2 1 2 -2 3 4 0
proof|inner pivot, then outer, two pairs|3 1 3 3 1 2 4 -4 0 3 5 2 1 2 -2 4 -4 0

# Variables 1, 8, 512 and 1,024 as what is opposed, 1,023 and 1,024 as pivots.
formula|1023 1 1  1024 2 2|1023 1024 0 -1023 -1024 0
proof|1,024 right of 1,023|3 1 2 1023 1024 -1024 0 4 3 -1024 0
formula|1024 2 1  1023 1 2|1023 1024 0 -1023 -1024 0
proof|1,024 left of 1,023|3 1 2 1023 1024 -1024 0
formula|1024 1 1  1 2 2  8 2 2  512 2 2|1024 1 8 512 0 -1024 -1 -8 -512 0
proof|1, 8 and 512 right of 1,024|3 1 2 1024 1 8 512 -1 -8 -512 0
formula|512 2 1  1024 1 2  1 2 3  8 2 3|1024 1 8 512 0 -1024 -1 -8 -512 0
proof|512 alone left of 1,024|3 1 2 1024 1 8 512 -1 -8 -512 0

# 17 over a merged clause, by either sign, ahead of 18 and behind 15: 4 depends on 3, in block 3.
formula|1 1 1  2 1 1  3 2 2  4 1 3|1 3 2 4 0 -1 -3 0 -2 3 0 -4 -3 0 -4 0
proof|both signs, blocked|3 1 2 1 3 2 4 -3 0 4 6 3 2 4 0
proof|both signs, blocked, a negative|3 1 2 1 3 2 4 -3 0 4 6 -3 2 4 0
proof|both signs, blocked, one stated|3 1 2 1 3 2 4 -3 0 4 6 3 -3 2 4 0
proof|both signs, blocked, nothing stated|3 1 2 1 3 2 4 -3 0 4 6 3 0
proof|one sign, blocked|4 4 -3 -4 0
proof|one sign, blocked, the sign of a wrong|4 4 3 -4 0
proof|both signs, blocked, a existential|3 1 2 1 3 2 4 -3 0 4 6 4 3 -3 2 0

# What blocks is the leftmost dependent of the merged clause, or the only one that depends on the reduced variable; an independent one does not.
formula|6 1 1  1 2 2  5 1 3  3 1 3|6 1 3 5 0 -6 -1 0 -1 -3 0 -1 -5 0
proof|both signs, blocked by 5 and 3|3 1 2 6 1 3 5 -1 0 4 5 1 3 5 0
proof|one sign, blocked by 3|4 3 -1 -3 0
formula|6 1 1  1 2 2  4 1 3  3 2 4  2 1 5|6 2 3 1 4 0 -6 -1 -3 0 -1 -4 0 -3 -2 0
proof|two pairs, the outer blocked by block 3|3 1 2 6 2 3 1 4 -1 -3 0 4 5 1 2 3 -3 4 0
proof|two pairs, the inner blocked by block 5|3 1 2 6 2 3 1 4 -1 -3 0 4 5 -3 2 1 -1 4 0
formula|1 1 1  2 2 2  3 1 3|1 2 3 0 -1 -2 0
proof|both signs, 3 to the right independent|3 1 2 1 2 -2 3 0 4 3 2 3 0

# Both signs removed by either one, and none left stated; a long-distance refutation.
formula|1 1 1  2 1 1  3 2 2  4 1 3|1 3 2 4 0 -1 -3 0 -2 3 0 -4 -3 0 -4 0
proof|both signs removed|3 1 2 1 3 2 4 -3 0 3 6 5 4 3 -3 2 0 4 7 3 2 0
proof|both signs removed, a negative|3 1 2 1 3 2 4 -3 0 3 6 5 4 3 -3 2 0 4 7 -3 2 0
proof|both signs removed, the other stated|3 1 2 1 3 2 4 -3 0 3 6 5 4 3 -3 2 0 4 7 3 -3 2 0
proof|both signs removed, a negative, the other stated|3 1 2 1 3 2 4 -3 0 3 6 5 4 3 -3 2 0 4 7 -3 3 2 0
proof|both signs removed, a stated|3 1 2 1 3 2 4 -3 0 3 6 5 4 3 -3 2 0 4 7 3 3 2 0
proof|both signs removed, both stated|3 1 2 1 3 2 4 -3 0 3 6 5 4 3 -3 2 0 4 7 3 3 -3 2 0
proof|both signs removed, nothing stated|3 1 2 1 3 2 4 -3 0 3 6 5 4 3 -3 2 0 4 7 3 0
proof|both signs removed, then the other|3 1 2 1 3 2 4 -3 0 3 6 5 4 3 -3 2 0 4 7 3 2 0 4 8 -3 2 0
proof|a long-distance refutation|3 1 2 1 3 2 4 -3 0 3 6 5 4 3 -3 2 0 4 7 3 2 0 4 3 3 -2 0 3 8 9 2 0

# 23 behind an empty clause, ahead of the other family's 13.
formula|1 2 1|1 0
proof|an empty clause by kind 4|4 1 1 0
proof|kind 4 behind an empty clause|4 1 1 0 4 1 1 0
proof|kind 2 behind an empty clause by kind 4|4 1 1 0 2 1 1 0
proof|kind 4 behind an empty clause by kind 2|2 1 1 0 4 1 1 0
proof|the word 3 behind an empty clause by kind 4|4 1 1 0 3
formula|1 1 1|1 0 -1 0
proof|an empty clause by kind 3|3 1 2 1 0
proof|kind 3 behind an empty clause|3 1 2 1 0 3 1 2 1 0
formula|1 2 1|1 0 0
proof|kind 4 behind an empty input clause|4 1 1 0
proof|the word 4 behind an empty input clause|4
formula|1 1 1  2 2 2|1 2 0 -1 -2 0
proof|kind 4 behind a pair removed|3 1 2 1 -2 2 0 4 3 2 0 4 3 2 0
proof|kind 1 behind a pair removed|3 1 2 1 -2 2 0 4 3 2 0 1 1 2 1 0
";
