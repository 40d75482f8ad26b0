// Heights as callers name them.
#![tactic(auto)]

ghost use Rattle.std.specs.Prelude.{◌≡◌};
ghost use Rattle.laws.specs.Fits.{LowHeight};

// A height that may be missing has 32 bits as a caller names it (SPECIFICATION 1.1), and 64 as the steps take it.
pub fn widened(h: Option<u32>) -> Option<u64>
    ensures { (result ≡ h) × LowHeight result }
{
    h.map(u64::from)
}
