// What is checked of a record's figures in metres before it is entered.
ghost use Rattle.std.specs.Prelude.{◌≡◌};
ghost use Rattle.entering.specs.Entering.{impossible_length, impossible_stretch, out_of_range};

// Whether no interval is so many metres long: not 1 to 5,000.
pub(super) fn is_impossible_length(metres: u32) -> bool
    ensures { result ≡ impossible_length metres }
{
    metres < 1 || metres > 5_000
}

// Whether no entry can be from one metre to the other: it would have no metres, or end behind 500,000.
pub(super) fn is_impossible_stretch(from: u32, to: u32) -> bool
    ensures { result ≡ impossible_stretch from to }
{
    to <= from || to > 500_000
}

// Whether a mark's position is above 450,000, or its danger point not from there to 1,000 m behind it.
pub(super) fn is_out_of_range(position: u32, danger: u32) -> bool
    ensures { result ≡ out_of_range position danger }
{
    position > 450_000 || danger < position || danger > position + 1_000
}
