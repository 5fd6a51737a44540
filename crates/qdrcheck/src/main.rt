// 01's first program: reads formula.qdimacs and proof.qdr in its working directory and prints one line.
#![tactic(auto)]

use programs::check_files;

// The first program on the files that 01 names.
fn main(rt: HostRuntime) {
    check_files(&rt, b"formula.qdimacs", b"proof.qdr");
}
