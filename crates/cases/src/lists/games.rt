// Games that are played. The list says what its cases show.

pub const LIST: &str =
    r"# The evaluator: games won and lost, its own bound, and the refusals of tables ahead of it.
# game|name|prefix|clauses.

# The lettered positions.
game|a|1 1 1  2 2 2  3 1 3  4 1 3|2 3 0 -2 4 0 -4 1 0 -1 -3 0
game|c|1 2 1  2 2 1  3 1 2|1 2 -3 0 -1 -2 3 0
game|e|1 2 1  2 1 2  3 1 2|1 2 0 -1 2 0 -2 3 0 -2 -3 0
game|f||
game|g||0
game|h|1 1 1  2 2 2|1 2 0
game|i|1 2 1|1 0
game|j|1 2 1|1 0 -1 0
game|k|1 1 1  2 1 1|1 2 0 -1 -2 0
game|l|1 2 1  2 1 2|1 2 0 -1 2 0

# Who moves first decides; a variable that no clause has; tables that are refused.
game|universal first|1 2 1  2 1 2|1 -2 0 -1 2 0
game|existential first|2 1 1  1 2 2|1 -2 0 -1 2 0
game|variable without clauses|1 2 1|
game|tables refused|1 1 1|2 0
game|block refused|1 1 1  2 2 1|2 0
game|length refused|1 1|1 0

# 16 and 17 variables, in one block and in turns: records are counted, not words. Tables are refused ahead of 17.
game|16 variables|e1..16|16 0
game|16 variables, the last universal|ea1..16|16 0
game|16 variables, one before the last|ea1..16|15 16 0
game|17 variables|ea1..17|17 0
game|17 times variable 1|51*1|
game|50 words|ea1..16 17 1|
";
