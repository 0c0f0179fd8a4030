// What came of a list of calls.
use super::answers::Answer;
use super::any_sheet::AnySheet;

// An answer for each call, and the sheet as it then stands.
#[derive(Drop)]
pub struct Replayed<'b, B, T> {
    pub answers: Vec<Answer<T>>,
    pub sheet: AnySheet<'b, B, T>,
}
