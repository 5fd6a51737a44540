// How much scratch the entries ask for, and where in it a row stands.
// The bytes of scratch that 01's entries ask for, and the small ones; a row is made in as many as these.
pub const SCRATCH: usize = 8_200;

pub const SMALL: usize = 640;

// Where the row stands: the entries of the search from u come before it, and a step's marks between rows; later come the entries of the search from −u, and
// between rows what the caller keeps.
pub const ROW: usize = 256;

pub const LATER: usize = 384;
