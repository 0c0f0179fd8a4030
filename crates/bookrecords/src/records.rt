// One record of a book file: a length in two bytes that counts what follows them, a kind in two bytes, and the content; the low
// byte of a number comes first.
use codes::{Class, Code, Speed};

#[derive(Clone, Copy)]
pub enum Record<'a> {
    // Kind 1, length 7: class, from and to, a byte each, and the emergency distance in metres, two bytes.
    Emergency {
        class: Class,
        from: Speed,
        to: Code,
        metres: u16,
    },
    // Kind 2, length 6: class and from, a byte each, and the service distance in metres, two bytes.
    Service {
        class: Class,
        from: Speed,
        metres: u16,
    },
    // Kind 3: a remark of any bytes, lent from the file, and the place in the file where they begin.
    Remark {
        place: usize,
        bytes: &'a [u8],
    },
}
