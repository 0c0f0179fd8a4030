// How the answers to a script are worded.

#![tactic(auto)]

mod answers;
mod refused;
mod row_texts;
mod wordings;

pub use answers::Answer;
pub use wordings::answer_text;
