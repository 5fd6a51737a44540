// Refutations by a solver from outside, each beside its formula in data/: the line that the first program prints, and what the
// evaluator says of the formula, which it plays up to 16 variables. The file stdout holds the line that each must give.
#![tactic(auto)]

use evaluator::evaluation::evaluate;
use files::{print_first, print_number, read_file};
use formula::read::read_formula;
use report::program::program_line;
use std::rt::Files;

// The proofs, each by its name and the paths of its formula and its proof. The paths stand whole, so that nothing asks for memory.
const PROOFS: [(&str, &str, &str); 21] = [
    (
        "copies-qpup-nosdcl",
        "copies-qpup-nosdcl/formula.qdimacs",
        "copies-qpup-nosdcl/proof.qdr",
    ),
    (
        "equality100-trad-nosdcl-shifted",
        "equality100-trad-nosdcl-shifted/formula.qdimacs",
        "equality100-trad-nosdcl-shifted/proof.qdr",
    ),
    (
        "equality150-trad-nosdcl-shifted",
        "equality150-trad-nosdcl-shifted/formula.qdimacs",
        "equality150-trad-nosdcl-shifted/proof.qdr",
    ),
    (
        "equality16-trad-nosdcl-shifted",
        "equality16-trad-nosdcl-shifted/formula.qdimacs",
        "equality16-trad-nosdcl-shifted/proof.qdr",
    ),
    (
        "equality2-qpup-nosdcl-shifted",
        "equality2-qpup-nosdcl-shifted/formula.qdimacs",
        "equality2-qpup-nosdcl-shifted/proof.qdr",
    ),
    (
        "equality2-trad-nosdcl-shifted",
        "equality2-trad-nosdcl-shifted/formula.qdimacs",
        "equality2-trad-nosdcl-shifted/proof.qdr",
    ),
    (
        "equality3-trad-nosdcl",
        "equality3-trad-nosdcl/formula.qdimacs",
        "equality3-trad-nosdcl/proof.qdr",
    ),
    (
        "game-qpup",
        "game-qpup/formula.qdimacs",
        "game-qpup/proof.qdr",
    ),
    (
        "game-trad",
        "game-trad/formula.qdimacs",
        "game-trad/proof.qdr",
    ),
    (
        "kbkf1-qpup-nosdcl",
        "kbkf1-qpup-nosdcl/formula.qdimacs",
        "kbkf1-qpup-nosdcl/proof.qdr",
    ),
    (
        "kbkf5-trad",
        "kbkf5-trad/formula.qdimacs",
        "kbkf5-trad/proof.qdr",
    ),
    (
        "kbkf6-trad-nosdcl",
        "kbkf6-trad-nosdcl/formula.qdimacs",
        "kbkf6-trad-nosdcl/proof.qdr",
    ),
    (
        "kbkf6-trad-shifted",
        "kbkf6-trad-shifted/formula.qdimacs",
        "kbkf6-trad-shifted/proof.qdr",
    ),
    (
        "mixed-trad-nosdcl-shifted",
        "mixed-trad-nosdcl-shifted/formula.qdimacs",
        "mixed-trad-nosdcl-shifted/proof.qdr",
    ),
    (
        "parity3-trad-shifted",
        "parity3-trad-shifted/formula.qdimacs",
        "parity3-trad-shifted/proof.qdr",
    ),
    (
        "parity4-qpup-nosdcl",
        "parity4-qpup-nosdcl/formula.qdimacs",
        "parity4-qpup-nosdcl/proof.qdr",
    ),
    (
        "rand2qbf-qpup-nosdcl-shifted",
        "rand2qbf-qpup-nosdcl-shifted/formula.qdimacs",
        "rand2qbf-qpup-nosdcl-shifted/proof.qdr",
    ),
    (
        "rand3qbf-qpup-nosdcl",
        "rand3qbf-qpup-nosdcl/formula.qdimacs",
        "rand3qbf-qpup-nosdcl/proof.qdr",
    ),
    (
        "rand3qbf-qpup-shifted",
        "rand3qbf-qpup-shifted/formula.qdimacs",
        "rand3qbf-qpup-shifted/proof.qdr",
    ),
    (
        "rand3qbf-trad-shifted",
        "rand3qbf-trad-shifted/formula.qdimacs",
        "rand3qbf-trad-shifted/proof.qdr",
    ),
    (
        "rand3qbf-trad-shifted-b",
        "rand3qbf-trad-shifted-b/formula.qdimacs",
        "rand3qbf-trad-shifted-b/proof.qdr",
    ),
];

// Prints bytes.
fn say(rt: &(impl Print + Eprint), text: &[u8]) {
    print_first(rt, text, text.len());
}

// Prints the line of the first program.
fn check(rt: &(impl Print + Eprint), formula: &[u8], proof: &[u8]) {
    let mut line = [0u8; 160];
    let n = program_line(formula, proof, &mut line);
    print_first(rt, &line, n);
}

// Prints what the evaluator answers; a refusal by its number and its place.
fn evaluated(rt: &(impl Print + Eprint), prefix: &[i32], clauses: &[i32]) {
    match evaluate(prefix, clauses) {
        Ok(true) => say(rt, b"true\n"),
        Ok(false) => say(rt, b"false\n"),
        Err(refusal) => {
            say(rt, b"refused ");
            print_number(rt, refusal.reason.number() as usize);
            say(rt, b" ");
            print_number(rt, refusal.place);
            say(rt, b"\n");
        }
    }
}

// Prints what the evaluator says of the formula, read into tables.
fn play(rt: &(impl Print + Eprint), formula: &[u8]) {
    let mut prefix = [0i32; 3_072];
    let mut clauses = [0i32; 16_384];
    match read_formula(formula, &mut prefix, &mut clauses) {
        Err(_) => say(rt, b"unread\n"),
        Ok(filled) => evaluated(
            rt,
            &prefix[..filled.prefix_used],
            &clauses[..filled.clauses_used],
        ),
    }
}

// Both judges on a formula and its proof.
fn judge(rt: &(impl Print + Eprint), name: &str, formula: &[u8], proof: &[u8]) {
    say(rt, name.as_bytes());
    say(rt, b": ");
    check(rt, formula, proof);
    say(rt, b"  evaluator: ");
    play(rt, formula);
}

// Both judges on a proof from outside, by its name and the paths of its two files. Of a file as many bytes are read as the first program takes, and one more.
fn outside(rt: &(impl Files + Print + Eprint), name: &str, formula_path: &str, proof_path: &str) {
    let mut formula = [0u8; 65_537];
    let mut proof = [0u8; 65_537];
    let n = read_file(rt, formula_path.as_bytes(), &mut formula);
    let m = read_file(rt, proof_path.as_bytes(), &mut proof);
    judge(rt, name, &formula[..n], &proof[..m]);
}

// All of them.
fn main(rt: HostRuntime) {
    for (name, formula, proof) in PROOFS {
        outside(&rt, name, formula, proof);
    }
}
