// What braking distances obey: the range of a figure, the four laws, and the test of them over any figures.

#![tactic(auto)]

mod figures;
mod order;
mod tables;

pub use figures::Figures;
pub use order::keeps_laws;
pub use tables::{FIGURE_COUNT, Table, emergency_place, is_distance, judge, service_place};
