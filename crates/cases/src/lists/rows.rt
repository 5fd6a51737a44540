// Rows that are asked for. The list says what its cases show.

pub const LIST: &str =
    r"# Dependency rows: the rows of the lettered positions, refusals and their order, buffers that are short or long.
# row|name|prefix|clauses|variable, then |scratch bytes|row bytes where the buffers lent have other lengths than 8200 and 1025.

# The lettered positions.
row|a, 2|1 1 1  2 2 2  3 1 3  4 1 3|2 3 0 -2 4 0 -4 1 0 -1 -3 0|2
row|c, 1|1 2 1  2 2 1  3 1 2|1 2 -3 0 -1 -2 3 0|1
row|c, 2|1 2 1  2 2 1  3 1 2|1 2 -3 0 -1 -2 3 0|2
row|e, 1|1 2 1  2 1 2  3 1 2|1 2 0 -1 2 0 -2 3 0 -2 -3 0|1
row|l, 1|1 2 1  2 1 2|1 2 0 -1 2 0|1

# What a path may pass and what not.
row|no clauses|1 2 1  2 1 2||1
row|joined both ways|1 2 1  2 1 2|1 2 0 -1 -2 0|1
row|left of the universal|2 1 1  1 2 2|1 2 0 -1 -2 0|1
row|over an existential|1 2 1  2 1 2  3 1 2|1 2 0 -2 3 0 -1 -3 0|1
row|over an existential of another block|1 2 1  2 1 2  4 2 3  3 1 4|1 2 0 -2 3 0 -1 -3 0|1
row|not over a universal|1 2 1  2 2 1  3 1 2|1 2 0 -2 3 0 -1 -3 0|1
row|not over an existential to the left|2 1 1  1 2 2  3 1 3|1 2 0 -2 3 0 -1 -3 0|1
row|numbers up to 1,024|7 2 1  1024 1 2|7 1024 0 -7 -1024 0|7

# 20 for anything but a universal, behind the tables.
row|asked for 0|1 1 1  2 2 2|1 2 0|0
row|asked for -2|1 1 1  2 2 2|1 2 0|-2
row|asked for an existential|1 1 1  2 2 2|1 2 0|1
row|asked for an unbound variable|1 1 1  2 2 2|1 2 0|3
row|asked for a block's number|1 2 1  2 1 2  4 2 3|1 2 0|3
row|asked for 1,025|1 1 1  2 2 2|1 2 0|1025
row|asked for the lowest number|1 1 1  2 2 2|1 2 0|-2147483648
row|asked for the highest number|1 1 1  2 2 2|1 2 0|2147483647
row|tables ahead of the variable|1 1 1  2 2 2  2 1 3|1 2 0|1
row|length ahead of the variable|1 1 1  2 2|1 0|1
row|quantifier ahead of the variable|1 1 1  2 3 2|1 2 0|1
row|block ahead of the variable|1 1 1  2 2 3|1 2 0|1

# Buffers too short, just long enough and longer.
row|1,024 bytes|1 2 1  2 1 2|1 2 0 -1 -2 0|1|8200|1024
row|1,024 bytes, asked for 2|1 2 1  2 1 2|1 2 0 -1 -2 0|2|8200|1024
row|scratch 8,199|1 2 1  2 1 2|1 2 0 -1 -2 0|1|8199|1025
row|no buffers|1 2 1  2 1 2|1 2 0 -1 -2 0|1|0|0
row|1,040 bytes, scratch 9,000|1 2 1  2 1 2|1 2 0 -1 -2 0|1|9000|1040
";
