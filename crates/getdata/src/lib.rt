// Request 01: the payload of getdata, as the network spells it. It is written from a list of hashes, and read into one; each call has lent output, no window
// and no clock. The two are proved apart, from definitions that stand apart; crates/getdata/specs has what holds of both.
#![tactic(auto)]

pub mod reading;
mod wire;
pub mod writing;
