// What comes before the steps of a proof. The list says what its cases show.

pub const LIST: &str =
    r"# What a proof is refused for before its steps, and the starts that steps find: tables, scratch, starts, and the order of these.
# formula|prefix|clauses, for the proofs behind it.
# proof|name|steps, then |scratch bytes|starts where the buffers lent have other lengths than 8200 and 16.

# Tables ahead of everything: the scratch and the starts are too short, and the step is broken.
formula|1 1 1  2|
proof|prefix not in threes|0|8199|0
formula|1 1 1  0 1 1|
proof|variable 0|0|8199|0
formula|1 1 1  2 1 1  1 2 2|
proof|variable bound twice|0|8199|0
formula|1 1 1  2 3 2|
proof|quantifier 3|0|8199|0
formula|1 1 1  2 2 1|
proof|block not raised|0|8199|0
formula|1 1 1|1 -2 0
proof|variable not bound|0|8199|0

# Clause words refused ahead of short buffers.
formula|1 1 1|1 1025 0
proof|clause word 1,025|0|8199|0
formula|1 1 1  2 1 1|1 2 -1 0
proof|literal opposed|0|8199|0
formula|1 1 1|1 0 -1
proof|last clause not closed|0|8199|0

# 3 for the scratch, ahead of the starts and of the steps.
formula|1 1 1  2 2 2  3 1 3  4 1 3|2 3 0 -2 4 0 -4 1 0 -1 -3 0
proof|scratch 8,199|2 1 2 3 0 2 2 -2 4 0 1 6 3 4 1 0 1 5 4 3 -1 0 1 7 8 1 0|8199|16
proof|scratch 8,199, a broken step|0|8199|16
proof|no scratch|2 1 2 3 0 2 2 -2 4 0 1 6 3 4 1 0 1 5 4 3 -1 0 1 7 8 1 0|0|16
proof|scratch 8,199, three starts for four clauses|2 1 2 3 0 2 2 -2 4 0 1 6 3 4 1 0 1 5 4 3 -1 0 1 7 8 1 0|8199|3
proof|scratch 8,200, nine starts for nine clauses|2 1 2 3 0 2 2 -2 4 0 1 6 3 4 1 0 1 5 4 3 -1 0 1 7 8 1 0|8200|9

# 3 for the starts of input clauses, at the first without one, ahead of the steps.
proof|no starts||8200|0
proof|three starts for four clauses||8200|3
proof|three starts for four clauses, a broken step|0|8200|3
formula|1 1 1|
proof|no starts, no clauses||8200|0
proof|no starts, a step on no clauses|2 1 1 0|8200|0

# 3 for the start of a step, after its 13 and ahead of its 14.
formula|1 1 1  2 2 2  3 1 3  4 1 3|2 3 0 -2 4 0 -4 1 0 -1 -3 0
proof|four starts, no steps||8200|4
proof|four starts, a right step|2 1 2 3 0|8200|4
proof|four starts, a broken step|2 1 2 3|8200|4
proof|four starts, kind 5|5 1 2 3 0|8200|4
proof|four starts, antecedent 0|2 0 2 3 0|8200|4
proof|four starts, a wrong pivot|2 1 3 2 0|8200|4
proof|five starts, a right step|2 1 2 3 0|8200|5
proof|five starts, two right steps|2 1 2 3 0 2 2 -2 4 0|8200|5
proof|five starts, antecedent 0|2 0 2 3 0 2 2 -2 4 0|8200|5
proof|five starts, the second step broken|2 1 2 3 0 0|8200|5
proof|eight starts for nine clauses|2 1 2 3 0 2 2 -2 4 0 1 6 3 4 1 0 1 5 4 3 -1 0 1 7 8 1 0|8200|8

# The same of kinds 3 and 4 (02, P14): a kind of the other family is 13, ahead of its start.
proof|scratch 8,199, kind 1 behind kind 3|3 1 4 3 2 -1 0 1 1 4 3 2 -1 0|8199|16
proof|four starts, kind 3|3 1 4 3 2 -1 0|8200|4
proof|four starts, kind 4, antecedent 0|4 0 2 3 0|8200|4
proof|four starts, 4 0 0|4 0 0|8200|4
proof|five starts, kind 4|4 1 2 3 0|8200|5
proof|five starts, kind 4 behind kind 3|3 1 4 3 2 -1 0 4 1 2 3 0|8200|5
proof|five starts, kind 1 behind kind 4|4 1 2 3 0 1 5 4 3 -1 0|8200|5
formula|2 2 1  1 1 2|1 2 0 -1 -2 0
proof|two starts, a pair to the left|3 1 2 1 2 -2 0|8200|2
proof|three starts, a pair to the left|3 1 2 1 2 -2 0|8200|3

# A step behind an empty clause (02, P10): behind the tables, the scratch and the starts of input clauses, ahead of its own start.
formula|1 2 1|0 2 0
proof|variable not bound, behind an empty clause|9|8199|0
formula|1 2 1|0 1 0
proof|scratch 8,199, behind an empty clause|9|8199|0
proof|one start for two clauses, behind an empty clause|9|8200|1
proof|two starts, a lone word behind an empty clause|9|8200|2
proof|two starts, a right step behind an empty clause|2 2 1 0|8200|2

# 2 on step words, behind the tables and ahead of the scratch and of 23.
formula|0 1 1|
proof|1,048,577 step words, variable 0|1048577*0|8199|1
formula||
proof|1,048,577 step words, scratch 8,199|1048577*0|8199|1
proof|1,048,576 step words, scratch 8,199|1048576*0|8199|1
formula||0
proof|1,048,577 step words, behind an empty clause|1048577*0|8200|1
";
