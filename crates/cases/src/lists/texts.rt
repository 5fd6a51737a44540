// Texts that are read. The list says what its cases show.

pub const LIST: &str =
    r"# Reading: texts that are read, with the whole of both tables, and texts that are refused.
# text|name|text, then |prefix words|clause words where the tables lent have other lengths than 12 and 6.

# The known positions of texts.
text|comma in a clause|p cnf 2 1\ne 1 2 0\n1,2 0\n
text|clause over two lines|p cnf 2 1\ne 1 2 0\n1\n2 0\n
text|1,024 variables in the header|p cnf 1024 0\n
text|1,025 variables in the header|p cnf 1025 0\n
text|no variables and no clauses|p cnf 0 0\n
text|empty clause alone|p cnf 0 1\n0\n

# Headers that are not complete: 1.
text|blanks only| \t\r\n
text|comments only|c one\nc two
text|no p|1 2 0\n
text|not cnf|p dnf 1 1\n
text|p glued to cnf|pcnf 1 1\n
text|minus before V|p cnf -1 1\n
text|minus zero as V|p cnf -0 1\n
text|plus before C|p cnf 1 +1\n

# The numbers of the header: 1, 2.
text|C with a leading zero|p cnf 1 01\n
text|V with a letter|p cnf 1x 0\n
text|NUL glued to C|p cnf 1 1\0\n
text|C missing|p cnf 1
text|1,025 variables, then junk|p cnf 1025 x\n
text|8,192 clauses promised|p cnf 1 8192\n
text|8,193 clauses promised|p cnf 1 8193\n
text|V of 30 digits|p cnf 100000000000000000000000000000 0\n
text|V 1 above 32 bits|p cnf 4294967297 0\n
text|C 1 above 64 bits|p cnf 1 18446744073709551617\n

# What parts tokens, and what closes nothing.
text|header over lines|p\ncnf\n1\n0\n
text|sets and clauses on the line of C|p cnf 1 1 e 1 0 1 0
text|CRLF line ends|p cnf 1 1\r\ne 1 0\r\n1 0\r\n
text|CR line ends|p cnf 1 1\re 1 0\r1 0
text|tabs|\tp\tcnf  1\t1 e\t1 0 1\t0
text|vertical tab is no blank|p cnf 0 0\x0b\n

# Where comments stand, and where a `c` is a token.
text|comments before p|c\nc p cnf 9 9\ncnf\np cnf 0 0\n
text|comment after empty lines|\n\nc x\np cnf 0 0\n
text|comment holding a CR|c x\rp cnf 9 9\np cnf 0 0\n
text|comment after a bare CR|\rc x\np cnf 0 0\n
text|comment after a space| c x\np cnf 0 0\n
text|comment inside the header|p cnf\nc x\n1 1\n
text|comment after the header|p cnf 1 1\nc x\ne 1 0\n1 0\n
text|comment between clauses|p cnf 1 2\ne 1 0\n1 0\nc x\n-1 0\n

# Sets: 4, 9.
text|neighbouring sets, universal last|p cnf 4 0\na 1 0\na 2 0\ne 3 0\na 4 0\n
text|empty set|p cnf 1 1\ne 0\n0\n
text|letter inside a set|p cnf 2 0\na 1 e 2 0\n
text|letter glued to a number|p cnf 2 1\na1 0\n0\n
text|set cut after its letter|p cnf 2 1\na
text|set cut after a variable|p cnf 2 1\na 1 2\n
text|set after the first clause|p cnf 2 2\ne 1 0\n1 0\ne 2 0\n2 0\n
text|second header|p cnf 1 1\np cnf 1 1\n

# The numbers of a set: 4, 5, 6.
text|negative in a set|p cnf 2 0\na 1 -2 0\n
text|negative above V in a set|p cnf 2 0\na -9 0\n
text|minus zero in a set|p cnf 2 0\na -0 0\n
text|leading zero in a set|p cnf 2 0\na 01 0\n
text|plus in a set|p cnf 2 0\na +1 0\n
text|set variable above V|p cnf 2 0\na 1 3 0\n
text|set variable of 30 digits|p cnf 2 0\na 100000000000000000000000000001 0\n
text|bound twice in one set|p cnf 2 0\na 1 2 1 0\n
text|bound twice in two sets|p cnf 2 0\na 1 0\ne 2 1 0\n

# Blocks: sets of one letter that stand together share one, and so do free variables and an `e` set that comes first; before an `a` set
# they have block 1 for themselves.
text|four blocks|p cnf 4 0\ne 4 0\na 3 0\ne 2 0\na 1 0\n
text|a set first|p cnf 3 0\na 3 1 0\ne 2 0\n
text|neighbouring e sets|p cnf 3 0\ne 2 0\ne 1 0\na 3 0\n
text|neighbouring sets of both letters|p cnf 4 0\na 4 0\na 3 0\ne 2 0\ne 1 0\n
text|free before two e sets|p cnf 4 1\ne 3 0\ne 2 0\na 4 0\n1 0\n
text|free before two a sets|p cnf 4 1\na 2 0\na 3 0\ne 1 0\n4 0\n
text|two free before an a set|p cnf 4 1\na 3 0\ne 2 0\n4 -1 0\n

# Literals: 5.
text|literal above V|p cnf 1 1\ne 1 0\n2 0\n
text|negative literal above V|p cnf 1 1\ne 1 0\n1 -2 0\n
text|literal of 30 digits|p cnf 1 1\ne 1 0\n-100000000000000000000000000001 0\n
text|literal 1 above 32 bits|p cnf 1 1\ne 1 0\n4294967297 0\n
text|lowest 32-bit number|p cnf 1 1\ne 1 0\n-2147483648 0\n

# Tokens of clauses that are no literals: 4.
text|minus zero for 0|p cnf 1 1\ne 1 0\n1 -0\n
text|two zeros in one token|p cnf 1 1\ne 1 0\n1 00\n
text|literal with a leading zero|p cnf 1 1\ne 1 0\n01 0\n
text|two minuses|p cnf 1 1\ne 1 0\n--1 0\n
text|letter in a clause|p cnf 1 1\ne 1 0\n1 e 0\n
text|byte over 127|p cnf 1 1\ne 1 0\n1\xff 0\n

# Literals repeated and opposed: 8; clauses that are read.
text|literal repeated|p cnf 2 1\ne 1 2 0\n1 2 1 0\n
text|literal opposed|p cnf 2 1\ne 1 2 0\n1 2 -1 0\n
text|two oppositions|p cnf 2 1\ne 1 2 0\n1 2 -2 -1 0\n
text|opposition over lines|p cnf 2 1\ne 1 2 0\n1\n-1 0\n
text|one literal in two clauses|p cnf 1 2\ne 1 0\n1 0\n1 0\n
text|empty clauses|p cnf 0 2\n0 0\n

# Variables that no set binds: added in front, rising; refused where their clause holds them already (8), above V (5), and last of all
# where the completed prefix has no room (3 at the end, after 9 and 10).
text|free, no sets|p cnf 3 2\n3 -1 0\n1 0\n
text|free before an e set|p cnf 3 1\ne 2 0\n3 -2 1 0\n
text|free before an a set|p cnf 3 1\na 2 0\n-3 2 1 0\n
text|free between listed numbers|p cnf 4 1\na 4 0\ne 1 0\n1 -3 2 4 0\n
text|free and not in a clause|p cnf 4 1\ne 3 0\n-2 0\n
text|free in two clauses|p cnf 2 2\n2 0\n-2 0\n
text|free, with room|p cnf 4 1\ne 4 3 0\n2 1 0\n
text|free, one without room|p cnf 5 1\ne 4 3 5 0\n2 1 0\n
text|free without room, clause not closed|p cnf 5 1\ne 4 3 5 0\n2 1\n
text|free without room, clause missing|p cnf 5 2\ne 4 3 5 0\n2 1 0\n
text|free without room, token after clause C|p cnf 5 1\ne 4 3 5 0\n2 1 0\n1\n
text|free repeated|p cnf 2 1\n2 1 2 0\n
text|free opposed|p cnf 2 1\ne 1 0\n2 1 -2 0\n
text|free above V|p cnf 2 1\n1 3 0\n
text|fifth listed without room, ahead of free|p cnf 6 1\ne 1 2 3 4 5 0\n6 0\n

# Texts that end too soon: 1, 9, 10.
text|clause not closed|p cnf 1 1\ne 1 0\n1\n
text|clause not closed, one missing|p cnf 1 2\ne 1 0\n1
text|fewer clauses than C|p cnf 1 2\ne 1 0\n1 0\n
text|more clauses than C|p cnf 1 1\ne 1 0\n1 0\n1 0\n
text|junk after clause C|p cnf 1 1\ne 1 0\n1 0\nx\n
text|set after clause C|p cnf 2 1\ne 1 0\n1 0\ne 2 0\n
text|C 0 and a clause|p cnf 1 0\ne 1 0\n1 0\n
text|C 0 and an empty clause|p cnf 1 0\n0\n
text|C 0 and junk|p cnf 1 0\nx\n
text|C 0 and junk inside a set|p cnf 1 0\ne x\n

# Tables too short: 3.
text|fifth variable without room|p cnf 5 0\ne 1 2 3 4 5 0\n
text|above V ahead of no room|p cnf 4 0\ne 1 2 3 4 5 0\n
text|bound twice ahead of no room|p cnf 5 0\ne 1 2 3 4 1 0\n
text|six words in six|p cnf 3 2\ne 1 2 3 0\n1 2 0\n1 2 0\n
text|closing 0 without room|p cnf 3 2\ne 1 2 3 0\n1 2 0\n1 2 3 0\n
text|literal without room|p cnf 3 2\ne 1 2 3 0\n1 2 3 0\n1 2 3 0\n
text|clash ahead of no room|p cnf 3 2\ne 1 2 3 0\n1 2 3 0\n1 2 1 0\n

# A record has room where three words are left: 3 at its token where one or two are, behind 5 and 6.
text|variable in 1 word|p cnf 1 0\ne 1 0\n|1|6
text|variable in 2 words|p cnf 1 0\ne 1 0\n|2|6
text|variable in 3 words|p cnf 1 0\ne 1 0\n|3|6
text|two variables in 4 words|p cnf 2 0\na 2 1 0\n|4|6
text|two variables in 5 words|p cnf 2 0\na 2 1 0\n|5|6
text|above V in 5 words|p cnf 2 0\na 2 3 0\n|5|6
text|bound twice in 5 words|p cnf 2 0\na 2 2 0\n|5|6
text|two variables in 6 words|p cnf 2 0\na 2 1 0\n|6|6
text|two variables in 8 words|p cnf 2 0\na 2 1 0\n|8|6
text|three variables in 8 words|p cnf 3 0\na 3 0\ne 1 2 0\n|8|6

# The records of free variables: 3 at the text's end, behind a listed one's at its token and behind 9.
text|free in 1 word|p cnf 1 1\n-1 0\n|1|6
text|free in 2 words|p cnf 1 1\n-1 0\n|2|6
text|free and listed in 2 words|p cnf 2 1\ne 2 0\n1 0\n|2|6
text|free in 3 words|p cnf 1 1\n-1 0\n|3|6
text|free and listed in 3 words|p cnf 2 1\ne 2 0\n1 0\n|3|6
text|free and listed in 5 words|p cnf 2 1\ne 2 0\n1 0\n|5|6
text|free and listed in 5 words, clause not closed|p cnf 2 1\ne 2 0\n1|5|6
text|free and listed in 6 words|p cnf 2 1\ne 2 0\n1 0\n|6|6
text|two free and one listed in 7 words|p cnf 3 1\na 2 0\n3 1 0\n|7|6
text|two free and one listed in 9 words|p cnf 3 1\na 2 0\n3 1 0\n|9|6

# Each refusal of a text on a later line, with a tab, a CR LF, a comment line and bytes over 127 before it: lines and columns count
# bytes, and only LF ends a line.
text|later, headless|c \xc3\xa4\r\n\r\n\tp cnf 1\tx\r\n
text|later, headless at the end|c \xc3\xa4\tx\r\np\tcnf\r\n1\r\n
text|later, oversized|c \xc3\xa4\r\np cnf\r\n\t1025 1\n
text|later, no room|c \xc3\xa4\r\np cnf 5 0\r\ne\t1 2 3 4\t5 0\r\n
text|later, bad token|c \xc3\xa4\r\np cnf 2 1\r\ne\t1 2 0\r\n\t1,2 0\r\n
text|later, bad token over 127|c \xc3\xa4\r\np cnf 2 1\r\ne\t1 2 0\r\n1 \xc3\xa4 0\r\n
text|later, out of range|c \xc3\xa4\r\np cnf 2 1\r\ne\t1 2 0\r\n1\t-3 0\r\n
text|later, bound twice|c \xc3\xa4\r\np cnf 2 1\r\ne\t1 2 0\r\na\t1 0\r\n
text|later, no room for the free|c \xc3\xa4\r\np cnf 5 2\r\ne\t1 2 3 0\r\n4\t5 0 1 0\r\n
text|later, clash|c \xc3\xa4\r\np cnf 2 1\r\ne\t1 2 0\r\n1\t2\r\n\t-1 0\r\n
text|later, unfinished|c \xc3\xa4\r\np cnf 2 1\r\ne\t1 2 0\r\n1\t2\r\n
text|later, miscount|c \xc3\xa4\r\np cnf 2 1\r\ne\t1 2 0\r\n1\t0 2 0\r\n
text|later, miscount at the end|c \xc3\xa4\r\np cnf 2 2\r\ne\t1 2 0\r\n1\t0\x20

# Tables of no words at all, and tables that are just long enough.
text|no prefix table|p cnf 1 1\ne 1 0\n1 0\n|0|2
text|no clause table|p cnf 1 1\ne 1 0\n1 0\n|3|0
text|three words and two words|p cnf 1 1\ne 1 0\n1 0\n|3|2
text|no prefix table, a free variable|p cnf 1 1\n1 0\n|0|2

# Both tables whole after a refusal.
left|three words and two words refused|p cnf 1 1\ne 1 0\n1 1 0\n|3|2

# A text one byte longer than the bound.
blank|1,048,577 bytes|1048577

# A text cut at each byte.
cuts|c\np cnf 1 1\na 1 0\n-1 0\n
";
