// Tables that are checked. The list says what its cases show.

pub const LIST: &str = r"# The check of tables: each of its refusals with its place, and the bounds.
# tables|name|prefix|clauses.

# Tables that pass.
tables|nothing at all||
tables|the word 0 alone||0
tables|the example|1 1 1  2 2 2  3 1 3  4 1 3|2 3 0 -2 4 0 -4 1 0 -1 -3 0
tables|variable 1,024|1024 1 1|-1024 0
tables|one literal in two clauses|1 1 1|1 0 1 0
tables|universals in block 1|2 2 1  1 2 1  3 1 2|
tables|five blocks|5 1 1  4 2 2  3 1 3  2 2 4  1 1 5|

# 1,024 variables in one block and in 1,024; 3,075 words and 3,073: 2 comes ahead of 5 and of 9, and 9 ahead of 5.
tables|1,024 variables|e1..1024|
tables|1,024 variables, 1,024 blocks|ea1..1024|
tables|1,025 variables|3075*0|
tables|3,073 words|3073*0|
tables|3,072 times 0|3072*0|
tables|3,071 times 0|3071*0|

# The bound on clauses and one more: 2 comes ahead of the prefix's 9.
tables|8,192 clauses||8192*0
tables|8,193 clauses||8193*0
tables|8,193 clauses, one prefix word|1|8193*0

# The bound on clause words and one more: 8 and the prefix's 9 come behind 2.
tables|65,536 times 1|1 1 1|65536*1
tables|65,537 times 1|1 1 1|65537*1
tables|65,537 times 1, two prefix words|1 1|65537*1

# Prefixes that are not in threes, 9 at the length: ahead of the records and of the clauses.
tables|one prefix word|1|
tables|two prefix words|1 1|
tables|four prefix words|1 1 1  2|
tables|five prefix words|1 1 1  2 2|
tables|one prefix word 0|0|
tables|seven prefix words, variable 0|1 1 1  0 1 1  2|
tables|eight prefix words, bound twice|1 1 1  1 1 1  2 2|
tables|five prefix words, quantifier 3|1 3 1  2 1|
tables|four prefix words, block 2|1 1 2  2|
tables|two prefix words, clause word 1,025|1 1|1025 0
tables|one prefix word, clause not closed|1|1

# The variables of records: 5, 6.
tables|variable 0|1 1 1  0 1 1  2 1 1|
tables|variable 0 first|0 1 1|
tables|variable -1|-1 1 1|
tables|variable -2, universal|1 1 1  -2 2 2|
tables|variable 1,025|1 1 1  1025 1 1|
tables|variable -1,025|-1025 1 1|
tables|variable the lowest number|1 1 1  -2147483648 1 1|
tables|variable the highest number|2147483647 1 1|
tables|bound twice|1 1 1  2 1 1  1 2 2|
tables|bound twice in one block|1 1 1  1 1 1|
tables|bound twice, 1,024|7 2 1  1024 2 1  3 1 2  1024 1 2|
tables|bound twice ahead of 0|1 1 1  1 1 1  0 1 1|

# The quantifiers of records: 5.
tables|quantifier 0|1 0 1|
tables|quantifier 3|1 1 1  2 3 2|
tables|quantifier -1|1 -1 1|
tables|quantifier -2|1 1 1  2 -2 2|
tables|quantifier 1,024|1 1024 1|
tables|quantifier 1,025|1 1025 1|
tables|quantifier the lowest number|1 1 1  2 -2147483648 2|
tables|quantifier the highest number|1 2147483647 1|

# The blocks of records, any number but the one that is due: 6.
tables|block 0 first|1 1 0|
tables|block 2 first|1 1 2|
tables|block 2 first, universal|1 2 2|
tables|block -1 first|1 2 -1|
tables|block not raised|1 1 1  2 2 1|
tables|block not raised, existential|1 2 1  2 2 1  3 1 1|
tables|block raised|1 1 1  2 1 2|
tables|block raised, universal|1 2 1  2 2 2|
tables|block raised by two|1 1 1  2 2 3|
tables|block lowered|1 1 1  2 2 2  3 1 1|
tables|block lowered, one quantifier|1 1 1  2 2 2  3 2 1|
tables|block 0|1 1 1  2 1 0|
tables|block -2|1 1 1  2 2 -2|
tables|block 1,025|1 1 1  2 1 1025|
tables|block the lowest number|1 1 1  2 2 -2147483648|
tables|block the highest number|1 1 2147483647|

# Prefixes that are wrong in two ways: the words of a record in turn, record by record, then the clauses.
tables|variable 0, quantifier 3, block 2|0 3 2|
tables|variable 1,025, block 0|1 1 1  1025 2 0|
tables|bound twice, quantifier 3, block 0|1 1 1  1 3 0|
tables|bound twice, block 2|1 1 1  1 1 2|
tables|quantifier 3, block 2|1 3 2|
tables|quantifier 3 ahead of variable 0|1 3 1  0 1 1|
tables|block 2 ahead of variable 0|1 1 2  0 1 1|
tables|block 0 ahead of bound twice|1 1 1  2 1 0  1 1 1|
tables|block 2 ahead of quantifier 0|1 1 2  2 0 2|
tables|variable 0 ahead of clauses|1 1 1  0 1 1|5
tables|quantifier 0 ahead of clauses|1 0 1|1 -2 0
tables|block 2 ahead of clauses|1 1 1  2 1 2|1025 0

# Clause words that are refused: 5, 7, 8, 9.
tables|clause word 1,025|1 1 1|1 1025 0
tables|clause word -1,025|1 1 1|-1025 0
tables|lowest number in a clause|1 1 1|-2147483648 0
tables|unbound|1 1 1|1 -2 0
tables|unbound, a quantifier's number|1 2 1|1 2 0
tables|unbound, a block's number|1 1 1  2 2 2  4 1 3|4 -3 0
tables|literal repeated|1 1 1  2 1 1|1 0 1 2 1 0
tables|literal opposed|1 1 1  2 2 2|2 1 -2 0
tables|two oppositions|1 1 1  2 1 1|1 2 -2 -1 0
tables|repeated ahead of out of range|1 1 1|1 1 2000 0
tables|out of range ahead of repeated|1 1 1|2000 1 1 0
tables|last clause not closed|1 1 1  2 1 1|1 0 2
tables|unbound ahead of not closed|1 1 1|1 2
";
