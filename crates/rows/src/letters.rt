// The stop letter.

// How the stop ground is shown: Sf where the ground before the mark is of class 10 or 11, else Sv.
#[derive(Clone, Copy, Debug, PartialEq, Eq)]
pub enum StopLetter {
    Sf,
    Sv,
}
