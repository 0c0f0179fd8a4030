// Writing a braking book into a buffer as the bytes of a book file.

#![tactic(auto)]

mod records;
mod writing;

pub use writing::{FILE_SIZE, write};
