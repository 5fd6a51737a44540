// Tables that are written. The list says what its cases show.

pub const LIST: &str = r"# Writing: the text, read back; room to the byte; the refusals of tables.
# written|name|prefix|clauses|bytes of the text lent.
# rewritten|name|text, whose tables are written into 64 bytes. long|name|prefix|bytes, where the text is not shown.

# Formulas of several kinds, and tables that are refused.
written|nothing at all|||64
written|the word 0 alone||0|64
written|the example|1 1 1  2 2 2  3 1 3  4 1 3|2 3 0 -2 4 0 -4 1 0 -1 -3 0|64
written|largest variable first|17 2 1  3 2 1|3 -17 0 0|64
written|three blocks|4 2 1  3 1 2  1 1 2  2 2 3||64
written|tables refused|1 1 1|2 0|64
written|length refused|1 1 1  2|1 0|64
written|quantifier refused|1 0 1|1 0|64
written|block refused|1 1 1  2 1 2|1 0|64

# Free variables share the run of an `e` set that comes first, and stand in one of their own before an `a` set; a block is one line.
rewritten|free before an e set|p cnf 3 1\ne 2 0\n3 -2 1 0\n
rewritten|free before an a set|p cnf 3 1\na 2 0\n-3 2 1 0\n
rewritten|neighbouring sets|p cnf 4 0\na 4 0\na 3 0\ne 2 0\ne 1 0\n
rewritten|free before neighbouring sets|p cnf 4 1\ne 4 0\ne 2 0\na 3 0\n-1 0\n

# Room to the byte.
written|the example in 58 bytes|1 1 1  2 2 2  3 1 3  4 1 3|2 3 0 -2 4 0 -4 1 0 -1 -3 0|58
written|the example in 57 bytes|1 1 1  2 2 2  3 1 3  4 1 3|2 3 0 -2 4 0 -4 1 0 -1 -3 0|57
written|nothing at all in no bytes|||0
written|tables refused ahead of room|1 1 1|2 0|0

# The longest prefix, in one block or in 1,024, written and read back.
long|1,024 variables|e1..1024|9000
long|1,024 variables, 1,024 blocks|ea1..1024|9000
";
