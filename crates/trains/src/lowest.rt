// The lowest code that reaches a pace.
ghost use Rattle.std.specs.Prelude.{◌≡◌, nat_le};
ghost use Rattle.std.specs.List.{find};
ghost use Rattle.codes.specs.Speeds.{byte, codes};

use codes::Code;

// The lowest code that is not below a pace; none for a pace above 120 km/h.
pub(crate) fn lowest_code(pace: u8) -> Option<Code>
    ensures { result ≡ find (λ code. nat_le pace (byte code)) codes }
{
    Code::ALL.iter().copied().find(|code| pace <= code.byte())
}
