// 01's second program: reads formula.qdimacs in its working directory and prints, for each universal, its dependents.
#![tactic(auto)]

use programs::dependency_file;

// The second program on the file that 01 names.
fn main(rt: HostRuntime) {
    dependency_file(&rt, b"formula.qdimacs");
}
