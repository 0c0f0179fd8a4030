// Braking books: emergency and service distances by gradient class, as published or from a file.

#![tactic(auto)]

mod braking;
mod file_book;
mod published;

pub use braking::BrakingBook;
pub use file_book::FileBook;
pub use published::PublishedBook;
