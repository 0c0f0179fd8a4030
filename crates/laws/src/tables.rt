// A book's figures as a table of 594 numbers in writing order: for each class the 45 emergency figures, from rising and to
// rising, then the nine service figures, from rising.
ghost use Rattle.std.specs.Prelude.{◌≡◌, ℕ, ◌<◌, slice_index};
ghost use Rattle.codes.specs.Refusals.{told};
ghost use Rattle.std.specs.List.{list_all};
ghost use Rattle.laws.specs.Questions.{emergency, service, place, column, rank, before, emergency_of, service_of};
ghost use Rattle.laws.specs.Judged.{metres, judged, Judged};

use super::figures::Figures;
use super::order::keeps_laws;
use codes::{BookFault, Class, Code, RecordFault, Refusal, Speed};

// How many figures a book has: 495 emergency and 99 service distances.
pub const FIGURE_COUNT: usize = 594;

// A table of figures; a figure that it lacks counts as 0.
#[derive(Clone, Copy, Debug)]
pub struct Table<'a> {
    pub figures: &'a [u16],
}

// The place of a speed among the nine, from 0: the match is the table of the places.
fn column(speed: Speed) -> usize
    ensures { result ≡ column speed }
{
    match speed {
        Speed::V30 => 0,
        Speed::V40 => 1,
        Speed::V50 => 2,
        Speed::V60 => 3,
        Speed::V70 => 4,
        Speed::V80 => 5,
        Speed::V90 => 6,
        Speed::V100 => 7,
        Speed::V120 => 8,
    }
}

// The place of a code among the ten, from 0.
fn rank(code: Code) -> usize
    ensures { result ≡ rank code }
{
    match code {
        Code::Stop => 0,
        Code::Go(speed) => 1 + column(speed),
    }
}

// How many emergency figures of a class stand before those from a speed.
fn before(speed: Speed) -> usize
    ensures { result ≡ before speed }
{
    let lower = column(speed);
    lower * (lower + 1) / 2
}

// Where the emergency figure of a question stands in a table.
pub fn emergency_place(class: Class, from: Speed, to: Code) -> usize
    ensures place { result ≡ place (emergency class from to) }
    ensures within { result < 594 }
{
    54 * (class.number() as usize - 1) + before(from) + rank(to)
}

// Where the service figure of a question stands in a table.
pub fn service_place(class: Class, from: Speed) -> usize
    ensures place { result ≡ place (service class from) }
    ensures within { result < 594 }
{
    54 * (class.number() as usize - 1) + 45 + column(from)
}

// The figure at a place, 0 past the end: figures answer every question.
fn figure_at(table: &[u16], place: usize) -> u16
    ensures { result ≡ slice_index table.now place }
{
    table.get(place).copied().unwrap_or(0)
}

impl<'a> Figures for Table<'a> {
    ghost emergencies = { λ table. emergency_of table.figures.now };

    ghost services = { λ table. service_of table.figures.now };

    fn emergency(&self, class: Class, from: Speed, to: Code) -> u16 {
        figure_at(self.figures, emergency_place(class, from, to))
    }

    fn service(&self, class: Class, from: Speed) -> u16 {
        figure_at(self.figures, service_place(class, from))
    }
}

// Whether a figure can stand in a book: 1 to 4,095 m.
pub fn is_distance(figure: u16) -> bool
    ensures { result ≡ metres figure }
{
    figure >= 1 && figure <= 4095
}

// Whether each figure is 1 to 4,095 m.
fn in_range(table: &[u16]) -> bool
    ensures { result ≡ list_all metres table.now }
{
    table.iter().all(|figure| is_distance(*figure))
}

// The first refusal that is due to a table.
fn first_fault(table: &[u16]) -> Result<(), Refusal>
    ensures { told result ≡ judged table.now }
{
    if table.len() != FIGURE_COUNT {
        return Err(Refusal::Size);
    }
    if !in_range(table) {
        return Err(Refusal::Record(RecordFault::Entry));
    }
    if !keeps_laws(&Table { figures: table }) {
        return Err(Refusal::Book(BookFault::Order));
    }
    Ok(())
}

// Whether a table in writing order is a book: refused by 10 where it has not 594 figures, by 17 where one of them is outside
// 1 to 4,095 m, and by 20 exactly where they break a law.
#[tactic(auto, using(crate::proofs::Fits::judged_from_told))]
pub fn judge(table: &[u16]) -> Result<(), Refusal>
    ensures { Judged table.now result }
{
    first_fault(table)
}
