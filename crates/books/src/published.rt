// The braking book as published.
ghost use Rattle.std.specs.Prelude.{◌≡◌};
ghost use Rattle.std.specs.List.{find};
ghost use Rattle.books.specs.Printed.{stands, beside, printed_emergency, printed_service};
ghost use Rattle.books.specs.PrintedLaws.{printed_distances, printed_laws};

mod tables;

use super::braking::BrakingBook;
use codes::{Class, Code, RecordFault, Refusal, Speed};
use tables::{Figure, emergency_table, service_table};

// The book with the printed distances.
#[derive(Clone, Copy, Debug)]
pub struct PublishedBook;

// The figure that stands in a table beside its headings, or none.
fn figure_beside(table: &[Figure], from: Speed, to: Code) -> Option<Figure>
    ensures { result ≡ find (λ figure. stands figure from to) table.now }
{
    table
        .iter()
        .copied()
        .find(|figure| figure.is_beside(from, to))
}

// The distance in metres that stands in a table beside its headings; 0 where none does. No `None`: a table has a
// figure for every question that is asked of it.
#[tactic(auto, unfolding(crate::specs::Printed::beside))]
fn metres_beside(table: &[Figure], from: Speed, to: Code) -> u16
    ensures { result ≡ beside table.now from to }
{
    figure_beside(table, from, to).map_or(0, Figure::metres)
}

impl BrakingBook for PublishedBook {
    ghost emergencies = { λ _. printed_emergency };

    ghost services = { λ _. printed_service };

    ghost distances = { λ _. printed_distances };

    ghost laws = { λ _. printed_laws };

    fn emergency(&self, class: Class, from: Speed, to: Code) -> Result<u16, Refusal> {
        if !(to < Code::Go(from)) {
            return Err(Refusal::Record(RecordFault::Entry));
        }
        Ok(metres_beside(emergency_table(class), from, to))
    }

    fn service(&self, class: Class, from: Speed) -> u16 {
        metres_beside(service_table(class), from, Code::Stop)
    }
}
