// What a train under way tells.

// The position of the train's head in metres, its pace in km/h, and whether it stands: pace 0 with stop told last.
#[derive(Clone, Copy)]
pub struct Report {
    pub position: u32,
    pub pace: u8,
    pub stands: bool,
}
