// The nine speeds, and the codes that are sent into an interval: stop, or one of the speeds.
ghost use Rattle.std.specs.Prelude.{◌≡◌};
ghost use Rattle.codes.specs.Speeds.{kmh, byte, lower, speed_of, code_of, Drives, Reads};

use super::refusals::Refusal;

// A speed in km/h.
#[derive(Clone, Copy, Debug, PartialEq, Eq, PartialOrd, Ord)]
pub enum Speed {
    V30 = 30,
    V40 = 40,
    V50 = 50,
    V60 = 60,
    V70 = 70,
    V80 = 80,
    V90 = 90,
    V100 = 100,
    V120 = 120,
}

// What an interval's line conductor carries.
#[derive(Clone, Copy, Debug, PartialEq, Eq, PartialOrd, Ord)]
pub enum Code {
    Stop,
    Go(Speed),
}

impl Speed {
    // The nine speeds, rising.
    pub const ALL: [Speed; 9] = [
        Speed::V30,
        Speed::V40,
        Speed::V50,
        Speed::V60,
        Speed::V70,
        Speed::V80,
        Speed::V90,
        Speed::V100,
        Speed::V120,
    ];

    // The speed of so many km/h, or none where it is not one of the nine. As `Class::from_number`: one for both would take the list and
    // the number as parameters, and be no shorter.
    pub fn from_kmh(kmh: u8) -> Option<Speed>
        ensures { result ≡ speed_of kmh }
    {
        Speed::ALL.iter().copied().find(|speed| speed.kmh() == kmh)
    }

    // The speed in km/h.
    pub fn kmh(self) -> u8
        ensures { result ≡ kmh self }
    {
        self as u8
    }
}

impl Code {
    // The ten codes, rising.
    pub const ALL: [Code; 10] = [
        Code::Stop,
        Code::Go(Speed::V30),
        Code::Go(Speed::V40),
        Code::Go(Speed::V50),
        Code::Go(Speed::V60),
        Code::Go(Speed::V70),
        Code::Go(Speed::V80),
        Code::Go(Speed::V90),
        Code::Go(Speed::V100),
        Code::Go(Speed::V120),
    ];

    // The code of a byte: 0 is stop, a speed's km/h that speed; none where the byte is no code.
    pub fn from_byte(byte: u8) -> Option<Code>
        ensures { result ≡ code_of byte }
    {
        Code::ALL.iter().copied().find(|code| code.byte() == byte)
    }

    // The byte of a code: 0 for stop, else the speed's km/h.
    pub fn byte(self) -> u8
        ensures { result ≡ byte self }
    {
        match self {
            Code::Stop => 0,
            Code::Go(speed) => speed.kmh(),
        }
    }

    // Whether the code ranks below another; stop ranks below every speed. For
    // callers that want the order with its contract; it is that of `<`.
    pub fn is_below(self, other: Code) -> bool
        ensures { result ≡ lower self other }
    {
        self < other
    }
}

// The speed of so many km/h; a number that is none of the nine is refused by 4.
impl TryFrom<u8> for Speed {
    type Error = Refusal;

    ghost try_from_gives = { Drives };

    fn try_from(kmh: u8) -> Result<Speed, Refusal> {
        Speed::from_kmh(kmh).ok_or(Refusal::Speed)
    }
}

// The code of a byte: 0 is stop, a speed's km/h that speed; a byte that is no code is refused by 11.
impl TryFrom<u8> for Code {
    type Error = Refusal;

    ghost try_from_gives = { Reads };

    fn try_from(byte: u8) -> Result<Code, Refusal> {
        Code::from_byte(byte).ok_or(Refusal::Byte)
    }
}
