// The ten reasons for which an entry is let go, and the fixed table that says which lower the frontier.
#![tactic(auto)]

ghost use Rattle.std.specs.Prelude.{◌≡◌};
ghost use Rattle.model.specs.Reasons.{lowering, lowers, lowered};

// At each reason's number 1 where it lowers the frontier to the entry's height, else 0. Place 0 is no reason. An array, not a match: SPECIFICATION 13
// asks for this form by name; read by the number, since a report's word says it.
const LOWERING: [u64; 11] = [0, 0, 1, 1, 0, 0, 1, 1, 1, 1, 1];

// The table is the model's, whose rule, "all but 1, 4 and 5", is checked there.
fn table() -> [u64; 11]
    ensures { result ≡ lowering }
{
    LOWERING
}

// `lowers`, for any number.
pub fn lowers(reason: u64) -> bool
    ensures { result ≡ lowers reason }
{
    if 10 < reason {
        return false;
    }
    let i = reason as usize;
    let lowering = table();
    lowering[i] == 1
}

// `lowered`: the frontier after an entry of the height went for the reason.
pub fn lowered(reason: u64, height: u64, frontier: u64) -> u64
    ensures { result ≡ lowered reason height frontier }
{
    if lowers(reason) {
        return numbers::lesser(frontier, height);
    }
    frontier
}
