// The nine calls over a sheet, as a list has them.

// How many records of each table a call is lent, and how many bytes of the row table; past a table's end it is lent all of it.
#[derive(Clone, Copy)]
pub struct Lending {
    pub intervals: usize,
    pub gradients: usize,
    pub restrictions: usize,
    pub marks: usize,
    pub row: usize,
}

// A call with its arguments, unread. The train comes with the call that sets it off, and with a work-out the bytes that it is to
// write.
#[derive(Drop)]
pub enum Action<T> {
    EnterInterval {
        number: u16,
        length: u32,
    },
    EnterGradient {
        from: u32,
        to: u32,
        faldtal: i32,
    },
    EnterRestriction {
        from: u32,
        to: u32,
        kmh: u8,
    },
    EnterMark {
        number: u16,
        position: u32,
        danger: u32,
    },
    StrikeGradient {
        place: usize,
    },
    StrikeRestriction {
        place: usize,
    },
    Close,
    Reopen,
    WorkOut {
        mark: u16,
        approach: u8,
        bytes: Vec<u8>,
    },
    Submit {
        mark: u16,
        approach: u8,
        row: Vec<u8>,
    },
    SetOff {
        train: T,
    },
    Step,
    Leave,
}

// A call, with what it is lent.
#[derive(Drop)]
pub struct Call<T> {
    pub lent: Lending,
    pub action: Action<T>,
}
