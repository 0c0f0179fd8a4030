// The class of a faldtal at each edge, one tenth of a permille beside it, and outside.
use codes::Class;

// Faldtal in tenths of a permille, and the class that is due; none where the number is refused.
#[rattlefmt::skip]
pub const FALDTAL: [(i32, Option<u8>); 27] = [
    (-2_147_483_648, None), (2_147_483_647, None), (351, None), (350, Some(1)), (0, Some(1)),
    (-25, Some(1)), (-26, Some(2)),
    (-50, Some(2)), (-51, Some(3)),
    (-71, Some(3)), (-72, Some(4)),
    (-80, Some(4)), (-81, Some(5)),
    (-90, Some(5)), (-91, Some(6)),
    (-100, Some(6)), (-101, Some(7)),
    (-125, Some(7)), (-126, Some(8)),
    (-175, Some(8)), (-176, Some(9)),
    (-225, Some(9)), (-226, Some(10)),
    (-275, Some(10)), (-276, Some(11)),
    (-350, Some(11)), (-351, None),
];

// Whether the faldtal is of the class, or refused by 5 where no class is due.
pub fn is_of_class(faldtal: i32, class: Option<u8>) -> bool {
    match Class::of_faldtal(faldtal) {
        Ok(found) => class == Some(found.number()),
        // the number that a host is told
        Err(refusal) => class.is_none() && refusal.number() == 5,
    }
}
