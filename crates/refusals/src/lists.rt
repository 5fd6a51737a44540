// The lists of cases, each a text of lines. They stand in the program, which so reads no file.
pub mod buffers;
pub mod files;
pub mod long;
pub mod small;
pub mod steps;
