// Trains by what they promise of their braking: the trait, and the trains that come with the library.

#![tactic(auto)]

mod either;
mod late;
mod lowest;
mod prompt;
mod train;

pub use either::EitherTrain;
pub use late::LateTrain;
pub use prompt::PromptTrain;
pub use train::Train;
