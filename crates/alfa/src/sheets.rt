// The sheet Alfa: four intervals from 10,000 on, 420, 280, 210 and 200 m long, a gradient of faldtal -30, class 2,
// drawn from 9,000 on, and a stop mark at 11,110.

// What differs from one variant of the sheet to the next, in metres.
#[derive(Clone, Copy)]
pub struct Variant {
    // the danger point
    pub danger: u32,
    // where the drawn gradient ends
    pub drawn_to: u32,
    // where a restriction to 50 km/h from 10,200 on ends, if there is one
    pub slow_to: Option<u32>,
}

impl Variant {
    // The sheet as it is.
    pub const PLAIN: Variant = Variant {
        danger: 11_160,
        drawn_to: 13_000,
        slow_to: None,
    };

    // Emergency braking from 50 km/h just fits behind the third interval.
    pub const ROOM_FOR_50: Variant = Variant {
        danger: 11_145,
        ..Variant::PLAIN
    };

    // One metre less.
    pub const NO_ROOM_FOR_50: Variant = Variant {
        danger: 11_144,
        ..Variant::PLAIN
    };

    // A train has just left the restriction behind where the second interval begins.
    pub const SLOW: Variant = Variant {
        slow_to: Some(10_250),
        ..Variant::PLAIN
    };

    // One metre more.
    pub const SLOW_LONGER: Variant = Variant {
        slow_to: Some(10_251),
        ..Variant::PLAIN
    };

    // The gradient is drawn up to the danger point.
    pub const DRAWN_ENOUGH: Variant = Variant {
        drawn_to: 11_160,
        ..Variant::PLAIN
    };

    // One metre less.
    pub const DRAWN_SHORT: Variant = Variant {
        drawn_to: 11_159,
        ..Variant::PLAIN
    };
}
