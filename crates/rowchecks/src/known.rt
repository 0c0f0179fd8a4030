// The codes and rules as a host is told them, by lists of the test's own: a byte, a rank or a number that the library had wrong would
// show.
use codes::{Code, Rule, Speed};

// The ten codes, rising.
pub const CODES: [Code; 10] = [
    Code::Stop,
    Code::Go(Speed::V30),
    Code::Go(Speed::V40),
    Code::Go(Speed::V50),
    Code::Go(Speed::V60),
    Code::Go(Speed::V70),
    Code::Go(Speed::V80),
    Code::Go(Speed::V90),
    Code::Go(Speed::V100),
    Code::Go(Speed::V120),
];

// The rules that ask for an interval's own code alone, in the order in which they are tried.
pub const FOUR: [Rule; 4] = [Rule::Touching, Rule::Ahead, Rule::Service, Rule::Stopping];

// A speed in km/h.
pub fn kmh_of(speed: Speed) -> u8 {
    match speed {
        Speed::V30 => 30,
        Speed::V40 => 40,
        Speed::V50 => 50,
        Speed::V60 => 60,
        Speed::V70 => 70,
        Speed::V80 => 80,
        Speed::V90 => 90,
        Speed::V100 => 100,
        Speed::V120 => 120,
    }
}

// The byte of a code, 0 for stop; codes rank by it.
pub fn byte_of(code: Code) -> u8 {
    match code {
        Code::Stop => 0,
        Code::Go(speed) => kmh_of(speed),
    }
}

// The number of a rule.
pub fn number_of(rule: Rule) -> u8 {
    match rule {
        Rule::Touching => 1,
        Rule::Ahead => 2,
        Rule::Service => 3,
        Rule::Stopping => 4,
        Rule::Next => 5,
    }
}
