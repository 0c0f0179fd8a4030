// The records of a book file, and a reader that hands them out one by one.

#![tactic(auto)]

mod reading;
mod records;

pub use reading::Reader;
pub use records::Record;
