// Proofs and rows in 640 bytes of scratch. The list says what its cases show.

pub const LIST: &str =
    r"# The entries that ask for 640 bytes of scratch: tables come first whatever the length of the scratch, lengths about 640, the order behind the
# tables, steps and rows. The first formula that is right is position e with 1,024 for its 3; its row for 1 holds both existentials.
# formula|prefix|clauses, for what is behind it.
# small proof|name|steps, then |scratch bytes|starts where the buffers lent have other lengths than 640 and 16.
# small row|name|variable, then |scratch bytes|row bytes where the buffers lent have other lengths than 640 and 1025.
# both|name|steps|variable|scratch bytes ..: for each length of the scratch the proof, then the row.

# Tables ahead of the scratch: the prefix.
formula|1 2 1  2 1 2  1024 1|1 2 0 -1 2 0 -2 1024 0 -2 -1024 0
both|prefix not in threes|2|2|0 127 128 639
formula|1 2 1  0 1 2  1024 1 2|1 2 0 -1 2 0 -2 1024 0 -2 -1024 0
both|variable 0|2|2|0 127 128 639
formula|1 2 1  1024 1 2  1024 1 2|1 2 0 -1 2 0 -2 1024 0 -2 -1024 0
both|variable 1,024 bound twice|2|2|0 127 128 639
formula|1 2 1  2 1 2  1024 3 2|1 2 0 -1 2 0 -2 1024 0 -2 -1024 0
both|quantifier 3|2|2|0 127 128 639
formula|1 2 1  2 1 2  1024 1 3|1 2 0 -1 2 0 -2 1024 0 -2 -1024 0
both|block raised|2|2|0 127 128 639

# Tables ahead of the scratch: the clauses.
formula|1 2 1  2 1 2  1024 1 2|1 2 0 -1 2 0 -2 1025 0 -2 -1024 0
both|clause word 1,025|2|2|0 127 128 639
formula|1 2 1  1024 1 2|1 2 0 -1 2 0 -2 1024 0 -2 -1024 0
both|variable 2 not bound, 2 a block|2|2|0 127 128 639
formula|1 2 1  2 1 2  1024 1 2|1 2 0 -1 2 0 -2 1024 0 -2 -2 0
both|literal repeated|2|2|0 127 128 639
formula|1 2 1  2 1 2  1024 1 2|1 2 0 -1 2 0 -2 1024 0 -1024 1024 0
both|literal opposed|2|2|0 127 128 639
formula|1 2 1  2 1 2  1024 1 2|1 2 0 -1 2 0 -2 1024 0 -2 -1024
both|last clause not closed|2|2|0 127 128 639

# 3 up to 639 bytes, and success from 640 on.
formula|1 2 1  2 1 2  1024 1 2|1 2 0 -1 2 0 -2 1024 0 -2 -1024 0
both|tables right|1 3 4 1024 -2 0 1 1 5 2 1 0 2 6 1 0|1|0 127 128 639 640 641 8200

# A row: 20 ahead of 3, and 3 for the row's buffer.
small row|asked for an existential|2|639|1025
small row|asked for an unbound variable|3|639|1025
small row|row of 1,024 bytes|1|639|1024
small row|row of 1,024 bytes|1|640|1024
small row|row of 1,024 bytes, asked for an existential|2|640|1024
small row|row of 1,040 bytes|1|640|1040

# A proof: 3 for the scratch ahead of the starts, these ahead of the steps.
small proof|a broken step|0|639|16
small proof|a broken step|0
small proof|three starts for four clauses|1 3 4 1024 -2 0 1 1 5 2 1 0 2 6 1 0|639|3
small proof|three starts for four clauses|1 3 4 1024 -2 0 1 1 5 2 1 0 2 6 1 0|640|3
small proof|three starts for four clauses, a broken step|0|640|3
small proof|no starts||639|0
small proof|no starts||640|0

# A step behind an empty clause (02, P10), in 640 bytes.
formula|1 2 1|0 1 0
small proof|an empty input clause||640|2
small proof|a step behind an empty clause|2 2 1 0|640|2
small proof|a step behind an empty clause|2 2 1 0|639|2

# 17 with what blocks and its block; a row is made anew for another variable.
formula|1 2 1  2 1 2  1024 1 2|1 2 0 -1 2 0 -2 1024 0 -2 -1024 0
small proof|blocked by 2|2 1 1 2 0
small proof|blocked by 1,024, 2 resolved away|1 1 3 2 1 1024 0 2 5 1 1024 0
formula|1 2 1  4 1 2  3 2 3  2 1 4|2 3 1 4 0 -1 -2 0 -1 -4 0 -3 -2 0
small proof|blocked by block 4, block 2 to the left|2 1 3 2 1 4 0
formula|1 2 1  2 2 1  3 1 2|1 2 3 0 -2 -3 0
small proof|one reduction right, the next blocked|2 1 1 2 3 0 2 3 2 3 0

# Behind a row, resolutions: on an existential to the left of the reduced variable, and between rows of two variables.
formula|1 1 1  2 2 2|1 2 0 -1 0
small proof|a reduction, then a resolution|2 1 2 1 0 1 3 2 1 0
formula|1 2 1  2 2 1  3 1 2|1 2 0 2 3 0 -2 -3 0 1 3 0
small proof|reductions of two variables, then a resolution|2 1 2 1 0 2 4 1 3 0 1 6 3 3 -2 0 2 7 -2 0
formula|1 1 1  2 2 2  3 1 3  4 1 3|2 3 0 -2 4 0 -4 1 0 -1 -3 0
small proof|the example's proof|2 1 2 3 0 2 2 -2 4 0 1 6 3 4 1 0 1 5 4 3 -1 0 1 7 8 1 0
small proof|the example's reduction misstated|2 1 2 4 0

# Long-distance proofs (02, P14): a refutation, and what refuses its steps.
formula|1 1 1  2 1 1  3 2 2  4 1 3|1 3 2 4 0 -1 -3 0 -2 3 0 -4 -3 0 -4 0
small proof|a long-distance refutation|3 1 2 1 3 2 4 -3 0 3 6 5 4 3 -3 2 0 4 7 3 2 0 4 3 3 -2 0 3 8 9 2 0
small proof|the other family behind a merge|3 1 2 1 3 2 4 -3 0 1 6 5 4 3 -3 2 0
small proof|whole in i, one sign in j, pivot left|3 1 2 1 3 2 4 -3 0 3 6 3 2 3 -3 4 0
small proof|whole in i, one sign in j, pivot right|3 1 2 1 3 2 4 -3 0 3 6 4 4 3 -3 2 0
small proof|both signs, blocked|3 1 2 1 3 2 4 -3 0 4 6 3 2 4 0
small proof|both signs removed, the other stated|3 1 2 1 3 2 4 -3 0 3 6 5 4 3 -3 2 0 4 7 3 -3 2 0
small proof|a long-distance refutation|3 1 2 1 3 2 4 -3 0 3 6 5 4 3 -3 2 0 4 7 3 2 0 4 3 3 -2 0 3 8 9 2 0|639|16
formula|1 2 1|1 0
small proof|kind 2 behind an empty clause by kind 4|4 1 1 0 2 1 1 0

# What is right of one pivot is forgotten at the next, rows between them or not.
formula|1 1 1  2 2 2  3 1 3  4 2 4|1 2 3 4 0 -1 -2 0 -3 -4 0 -3 -2 0
small proof|inner pivot, the pair to its right|3 1 3 3 1 2 4 -4 0
small proof|outer pivot, then inner|3 1 2 1 2 -2 3 4 0 3 1 4 3 1 2 -2 4 0
small proof|outer pivot, a reduction, then inner|3 1 2 1 2 -2 3 4 0 4 1 4 1 2 3 0 3 6 4 3 1 2 -2 0
small proof|inner pivot, then outer, two pairs|3 1 3 3 1 2 4 -4 0 3 5 2 1 2 -2 4 -4 0
formula|1 1 1  2 2 2  3 1 3|1 2 3 0 -1 -2 0 -3 2 0
small proof|a merged pair removed ahead of an inner pivot|3 1 2 1 2 -2 3 0 4 4 2 3 0 3 5 3 3 2 0 4 6 2 0
formula|6 1 1  1 2 2  4 1 3  3 2 4  2 1 5|6 2 3 1 4 0 -6 -1 -3 0 -1 -4 0 -3 -2 0
small proof|two pairs, the inner blocked by block 5|3 1 2 6 2 3 1 4 -1 -3 0 4 5 -3 2 1 -1 4 0

# Variables 1, 8, 512 and 1,024 as what is opposed, 1,023 and 1,024 as pivots.
formula|1023 1 1  1024 2 2|1023 1024 0 -1023 -1024 0
small proof|1,024 right of 1,023|3 1 2 1023 1024 -1024 0 4 3 -1024 0
formula|1024 2 1  1023 1 2|1023 1024 0 -1023 -1024 0
small proof|1,024 left of 1,023|3 1 2 1023 1024 -1024 0
formula|1024 1 1  1 2 2  8 2 2  512 2 2|1024 1 8 512 0 -1024 -1 -8 -512 0
small proof|1, 8 and 512 right of 1,024|3 1 2 1024 1 8 512 -1 -8 -512 0
formula|512 2 1  1024 1 2  1 2 3  8 2 3|1024 1 8 512 0 -1024 -1 -8 -512 0
small proof|512 alone left of 1,024|3 1 2 1024 1 8 512 -1 -8 -512 0

# The lettered positions' rows.
formula|1 1 1  2 2 2  3 1 3  4 1 3|2 3 0 -2 4 0 -4 1 0 -1 -3 0
small row|a, 2|2
formula|1 2 1  2 2 1  3 1 2|1 2 -3 0 -1 -2 3 0
small row|c, 1|1
small row|c, 2|2
formula|1 2 1  2 1 2  3 1 2|1 2 0 -1 2 0 -2 3 0 -2 -3 0
small row|e, 1|1
formula|1 2 1  2 1 2|1 2 0 -1 2 0
small row|l, 1|1
";
