// The lists of cases, each a text of lines. They stand in the program, which so reads no file.
pub mod games;
pub mod rows;
pub mod tables;
pub mod texts;
pub mod written;
