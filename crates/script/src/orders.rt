// What the lines of a script order.

// An order. Metres are positions or lengths; a speed and an approach code are bytes, and may be no code.
#[derive(Clone, Copy)]
pub enum Order {
    // A new blank line that starts at so many metres.
    Start {
        start: u32,
    },
    // One interval more.
    Interval {
        number: u16,
        length: u32,
    },
    // One gradient more, over a stretch; a faldtal is in tenths of a permille.
    Gradient {
        from: u32,
        to: u32,
        faldtal: i32,
    },
    // One restriction more, over a stretch.
    Restriction {
        from: u32,
        to: u32,
        speed: u8,
    },
    // One stop mark more.
    Mark {
        number: u16,
        position: u32,
        danger: u32,
    },
    // The highest row before a mark.
    WorkOut {
        mark: u16,
        approach: u8,
    },
    // The verdict on a row before a mark; its bytes are handed over beside the order.
    Examine {
        mark: u16,
        approach: u8,
    },
}
