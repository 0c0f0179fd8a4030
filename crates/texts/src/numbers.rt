// The numbers that words write.
ghost use Rattle.std.specs.Prelude.{◌≡◌, ◌^◌, ◌≤◌, ◌-◌, pos, neg_ℤ, IfSome};
ghost use Rattle.texts.specs.Numbers.{Reader, upto, signed_of};

// A number as a place in an order holds it.
pub trait Number: Copy {
    // The number that a word writes; none where the word writes none that the place can hold.
    ghost reads: { Reader Self };

    // Reads a word.
    fn read(word: &[u8]) -> Option<Self>
        ensures { result ≡ reads word.now };
}

// The number that a word of decimal digits writes, leading zeros or not; none where the word is empty, has another byte, or writes
// a number above the limit. One loop, which ends at the first byte that settles it: std's `from_utf8` and `parse` go over the word
// twice, and a row of bytes took 1.8 times as long to read.
#[tactic(auto, using(crate::proofs::Values::digits))]
fn natural(word: &[u8], limit: u32) -> Option<u32>
    ensures value { result ≡ upto limit word.now }
    ensures bound { IfSome result (λ n. n ≤ limit) }
{
    if word.is_empty() {
        return None;
    }
    let mut value = 0u64;
    for byte in word {
        if !byte.is_ascii_digit() {
            return None;
        }
        value = 10 * value + (*byte - b'0') as u64;
        if value > limit as u64 {
            return None;
        }
    }
    Some(value as u32)
}

// The number below 0 of a magnitude of up to 2^31.
fn negated(magnitude: u32) -> i32
    requires { magnitude ≤ 2 ^ 31 }
    ensures { result ≡ neg_ℤ (pos magnitude) }
{
    (-(magnitude as i64)) as i32
}

// The four kinds of numbers differ in the type and its limit: a trait is implemented type by type.

// Digits, leading zeros or not, up to 255.
impl Number for u8 {
    ghost reads = { upto 255 };

    fn read(word: &[u8]) -> Option<u8> {
        let value = natural(word, 255)?;
        Some(value as u8)
    }
}

// Digits, leading zeros or not, up to 65,535.
impl Number for u16 {
    ghost reads = { upto 65535 };

    fn read(word: &[u8]) -> Option<u16> {
        let value = natural(word, 65_535)?;
        Some(value as u16)
    }
}

// Digits, leading zeros or not, up to 2^32 - 1.
impl Number for u32 {
    ghost reads = { upto (2 ^ 32 - 1) };

    fn read(word: &[u8]) -> Option<u32> {
        natural(word, u32::MAX)
    }
}

// Digits, or a minus and digits, from -2^31 to 2^31 - 1.
impl Number for i32 {
    ghost reads = { signed_of };

    fn read(word: &[u8]) -> Option<i32> {
        if word.is_empty() {
            return None;
        }
        if word[0] == b'-' {
            let magnitude = natural(&word[1..], 2_147_483_648)?;
            return Some(negated(magnitude));
        }
        let value = natural(word, 2_147_483_647)?;
        Some(value as i32)
    }
}
