// The pairs of files that the programs are run on.

pub const PAIRS: &str = r"# Pairs of a formula and a proof: formula|proof. proof/missing is no file.

# Proofs that are right: with a note ahead of the steps, without steps; one of them again with a step behind its empty clause; dependents in
# prefix order; the example without a set for its outermost variable, and all 1,024 variables without one.
formula/example|proof/example
formula/example|proof/noted
formula/empty-clause|proof/no-steps-1
formula/reduction|proof/reduction
formula/reduction|proof/after-empty
formula/dependents|proof/dependents
formula/prefix-order|proof/prefix-order
formula/free|proof/example
formula/free-1024|proof/no-steps-4

# Files as long as is taken and one byte longer; the bounds on variables and on clauses and 16,384 clause words, all reached; and
# two words more.
formula/variables-1024|proof/no-steps-1
formula/bytes-65536|proof/example
formula/bytes-65537|proof/example
formula/example|proof/bytes-65536
formula/example|proof/bytes-65537
formula/clauses-8192|proof/clauses-8192
formula/words-16386|proof/missing

# Files that are missing or empty, and a folder in a file's place.
formula/missing|proof/example
formula/empty|proof/example
formula|proof/example
formula/example|proof/missing
formula/example|proof/empty
formula/example|proof
formula/missing|proof/missing

# A formula that is refused, beside a proof that is missing or too long: the formula's line.
formula/bound-twice|proof/bytes-65537
formula/bytes-65537|proof/missing
formula/words-16386|proof/bytes-65537

# 1, and 2 by the header's numbers.
formula/comments-only|proof/missing
formula/no-header|proof/missing
formula/short-header|proof/missing
formula/negative-header|proof/missing
formula/variables-1025|proof/missing
formula/clauses-8193|proof/missing

# 4, 6, 9 and 10 where the sets are.
formula/empty-set|proof/missing
formula/negative-in-set|proof/missing
formula/bound-twice|proof/missing
formula/open-set|proof/missing
formula/clauses-0|proof/missing

# 4, 5 and 8 in clauses.
formula/glued-token|proof/missing
formula/above-v|proof/missing
formula/opposed|proof/missing
formula/repeated|proof/missing

# 9 and 10 at a text's end.
formula/open-clause|proof/missing
formula/token-after-last|proof/missing
formula/too-few|proof/missing

# 11 and 12.
formula/example|proof/bytes-11
formula/example|proof/wrong-mark
formula/example|proof/distance-106
formula/example|proof/distance-past-start
formula/example|proof/reduction

# 13, 14 and 15.
formula/example|proof/kind-5
formula/example|proof/no-closing-0
formula/example|proof/antecedent-0
formula/example|proof/antecedent-own
formula/example|proof/pivot-missing
formula/example|proof/existential-reduced
formula/universal-units|proof/universal-pivot

# 16 to 19. 17 names what blocks: in 01's position d, and under a free variable and five blocks, where the outer universal is reduced and
# then the inner one.
formula/two-existentials|proof/tautology
formula/two-universals|proof/blocked
formula/five-blocks|proof/blocked-outside
formula/five-blocks|proof/blocked-inside
formula/example|proof/misstated
formula/example|proof/stated-twice
formula/example|proof/no-steps-4
formula/universal-last|proof/one-step
formula/nothing|proof/no-steps-0

# Long-distance proofs (02, P14): one that is right, whose first pivot is a free variable and whose two reductions remove both signs; 13 for a
# kind of the other family, 16 left of a pivot and for an existential, 17, 18 for a sign left, 23; the example's proof in kinds 3 and 4.
formula/merging|proof/merged
formula/merging|proof/merged-mixed
formula/merging-left|proof/merged
formula/two-existentials|proof/merged-existential
formula/merging-blocked|proof/merged-blocked
formula/merging|proof/merged-one-left
formula/reduction|proof/after-empty-long
formula/example|proof/example-long
";
