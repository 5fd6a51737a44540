// Proof files that are read. The list says what its cases show.

pub const LIST: &str =
    r"# Proof files: each refusal of the trailer, their order, and what the table for the steps then holds.
# file|name|bytes, then |clauses|words where the formula has not 4 clauses or the table lent not 4 words.

# 11 for fewer bytes than a trailer has.
file|no bytes|
file|the mark alone|QDR1
file|11 bytes|\0\0\0\x04\0\0\0QDR1
file|12 bytes|\0\0\0\0\x04\0\0\0QDR1

# 11 for a mark that is wrong or does not end the file.
file|first byte of the mark wrong|\0\0\0\0\x04\0\0\0qDR1
file|second byte of the mark wrong|\0\0\0\0\x04\0\0\0QdR1
file|third byte of the mark wrong|\0\0\0\0\x04\0\0\0QDr1
file|fourth byte of the mark wrong|\0\0\0\0\x04\0\0\0QDR2
file|a byte after the mark|\0\0\0\0\x04\0\0\0QDR1\n

# 11 for a distance that is no multiple of 4 or passes the start. Distances are unsigned and never wrapped.
file|distance 1|\0\0\0\0\x01\0\0\0\x04\0\0\0QDR1
file|distance 2|\0\0\0\0\x02\0\0\0\x04\0\0\0QDR1
file|distance 3|\0\0\0\0\x03\0\0\0\x04\0\0\0QDR1
file|distance 5 of 8 bytes|\0\0\0\0\0\0\0\0\x05\0\0\0\x04\0\0\0QDR1
file|distance 4 of no bytes|\x04\0\0\0\x04\0\0\0QDR1
file|distance 8 of 7 bytes|\0\0\0\0\0\0\0\x08\0\0\0\x04\0\0\0QDR1
file|distance 4,294,967,292|\0\0\0\0\xfc\xff\xff\xff\x04\0\0\0QDR1

# 12 for another C. Counts are unsigned and never wrapped.
file|C 5 for 4|\0\0\0\0\x05\0\0\0QDR1
file|C 0 for 4|\0\0\0\0\0\0\0\0QDR1
file|C 260 for 4|\0\0\0\0\x04\x01\0\0QDR1
file|C 2,147,483,652 for 4|\0\0\0\0\x04\0\0\x80QDR1

# C of the trailer for a formula without clauses.
file|C 0 for 0|\0\0\0\0\0\0\0\0QDR1|0|4
file|C 4 for 0|\0\0\0\0\x04\0\0\0QDR1|0|4

# The highest C that a trailer can have.
file|C 4,294,967,295|\0\0\0\0\xff\xff\xff\xffQDR1|4294967295|1

# 3 for the step table.
file|four words in four|\x01\0\0\0\x02\0\0\0\xff\xff\xff\xff\0\0\0\0\x10\0\0\0\x04\0\0\0QDR1
file|five words in four|\x01\0\0\0\x02\0\0\0\xff\xff\xff\xff\0\0\0\0\0\0\0\0\x14\0\0\0\x04\0\0\0QDR1

# A table of no words.
file|no words in no table|\0\0\0\0\x04\0\0\0QDR1|4|0
file|one word in no table|\0\0\0\0\x04\0\0\0\x04\0\0\0QDR1|4|0

# 11, 2, 12, 3: files that are wrong in two ways.
file|distance above the bound, past the start|\0\0\0\0\x04\0\x40\0\x04\0\0\0QDR1
file|wrong mark and C 5|\0\0\0\0\x05\0\0\0QDR2
file|distance 2 and C 5|\0\0\0\0\x02\0\0\0\x05\0\0\0QDR1
file|wrong mark and five words in four|\x01\0\0\0\x02\0\0\0\xff\xff\xff\xff\0\0\0\0\0\0\0\0\x14\0\0\0\x04\0\0\0QDR2
file|C 5 and five words in four|\x01\0\0\0\x02\0\0\0\xff\xff\xff\xff\0\0\0\0\0\0\0\0\x14\0\0\0\x05\0\0\0QDR1

# What stands before the steps is not read; the table is 0 behind them.
file|two words in four|\x02\0\0\0\xfe\xff\xff\xff\x08\0\0\0\x04\0\0\0QDR1
file|a note of five bytes|note:\x02\0\0\0\xfe\xff\xff\xff\x08\0\0\0\x04\0\0\0QDR1
file|a note and distance 0|a note\0\0\0\0\x04\0\0\0QDR1
file|a trailer as the note|\0\0\0\0\x05\0\0\0QDR1\x07\0\0\0\x04\0\0\0\x04\0\0\0QDR1
file|the lowest and the highest number|\0\0\0\x80\xff\xff\xff\x7f\x08\0\0\0\x04\0\0\0QDR1
";
