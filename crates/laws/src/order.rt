// The test of the four laws over any figures: each against those of the neighbouring questions.
//
// What is asked goes from function to function as class, from and to: a struct of them would be taken apart again at each figure.
ghost use Rattle.std.specs.Prelude.{◌≡◌, Decides};
ghost use Rattle.std.specs.List.{list_all};
ghost use Rattle.codes.specs.Speeds.{codes};
ghost use Rattle.laws.specs.Books.{Laws};
ghost use Rattle.laws.specs.Order.{next_speed, next_code, next_class, next_to_kept, emergency_in_order, to_in_order, service_in_order, row_in_order, class_in_order, in_order};

use super::figures::Figures;
use codes::{Class, Code, Speed};

// The next higher of the nine speeds. The three of this kind are a line each; one for all would take a list of any type with an
// order, and each call a lemma from that order back to km/h, bytes and numbers.
fn next_speed(speed: Speed) -> Option<Speed>
    ensures { result ≡ next_speed speed }
{
    Speed::ALL.iter().copied().find(|faster| speed < *faster)
}

// The next higher code; 30 km/h follows stop.
fn next_code(code: Code) -> Option<Code>
    ensures { result ≡ next_code code }
{
    Code::ALL.iter().copied().find(|higher| code < *higher)
}

// The next steeper class.
fn next_class(class: Class) -> Option<Class>
    ensures { result ≡ next_class class }
{
    Class::ALL.iter().copied().find(|steeper| class < *steeper)
}

// Whether the emergency figure, which is so many metres, is not below that of the next higher `to`, where that has one. The metres are
// handed in, so that each figure is asked for once.
fn next_to_kept<F: Figures>(figures: &F, class: Class, from: Speed, to: Code, metres: u16) -> bool
    requires { metres ≡ F.Figures.emergencies figures.now class from to }
    ensures { result ≡ next_to_kept (F.Figures.emergencies figures.now) class from to }
{
    next_code(to).is_none_or(|higher| {
        !(higher < Code::Go(from)) || figures.emergency(class, from, higher) <= metres
    })
}

// Whether the emergency figure is in order with that of the next higher `to`, the next higher `from` and the next steeper class.
fn emergency_in_order<F: Figures>(figures: &F, class: Class, from: Speed, to: Code) -> bool
    ensures { result ≡ emergency_in_order (F.Figures.emergencies figures.now) class from to }
{
    let metres = figures.emergency(class, from, to);
    next_to_kept(figures, class, from, to, metres)
        && next_speed(from).is_none_or(|faster| metres <= figures.emergency(class, faster, to))
        && next_class(class).is_none_or(|steeper| metres <= figures.emergency(steeper, from, to))
}

// Only a `to` below `from` has a figure.
fn to_in_order<F: Figures>(figures: &F, class: Class, from: Speed, to: Code) -> bool
    ensures { result ≡ to_in_order (F.Figures.emergencies figures.now) class from to }
{
    !(to < Code::Go(from)) || emergency_in_order(figures, class, from, to)
}

// Whether the service figure is in order with that of the next higher `from` and the next steeper class.
fn service_in_order<F: Figures>(figures: &F, class: Class, from: Speed) -> bool
    ensures { result ≡ service_in_order (F.Figures.services figures.now) class from }
{
    let metres = figures.service(class, from);
    next_speed(from).is_none_or(|faster| metres <= figures.service(class, faster))
        && next_class(class).is_none_or(|steeper| metres <= figures.service(steeper, from))
}

// Whether all emergency figures from one speed are in order.
fn all_to_in_order<F: Figures>(figures: &F, class: Class, from: Speed) -> bool
    ensures { result ≡ list_all (to_in_order (F.Figures.emergencies figures.now) class from) codes }
{
    Code::ALL
        .iter()
        .all(|to| to_in_order(figures, class, from, *to))
}

// Whether all figures from one speed are in order.
#[tactic(auto, unfolding(crate::specs::Order::row_in_order))]
fn row_in_order<F: Figures>(figures: &F, class: Class, from: Speed) -> bool
    ensures { result ≡ row_in_order (F.Figures.emergencies figures.now) (F.Figures.services figures.now) class from }
{
    service_in_order(figures, class, from) && all_to_in_order(figures, class, from)
}

// Whether all figures of one class are in order.
#[tactic(auto, unfolding(crate::specs::Order::class_in_order))]
fn class_in_order<F: Figures>(figures: &F, class: Class) -> bool
    ensures { result ≡ class_in_order (F.Figures.emergencies figures.now) (F.Figures.services figures.now) class }
{
    Speed::ALL
        .iter()
        .all(|from| row_in_order(figures, class, *from))
}

// Whether all figures are in order.
#[tactic(auto, unfolding(crate::specs::Order::in_order))]
fn all_in_order<F: Figures>(figures: &F) -> bool
    ensures { result ≡ in_order (F.Figures.emergencies figures.now) (F.Figures.services figures.now) }
{
    Class::ALL
        .iter()
        .all(|class| class_in_order(figures, *class))
}

// Whether the figures keep the four laws: yes exactly if they do.
#[tactic(auto, using(crate::proofs::Neighbours::laws_decided))]
pub fn keeps_laws<F: Figures>(figures: &F) -> bool
    ensures test { result ≡ in_order (F.Figures.emergencies figures.now) (F.Figures.services figures.now) }
    ensures laws { Decides result (Laws (F.Figures.emergencies figures.now) (F.Figures.services figures.now)) }
{
    all_in_order(figures)
}
