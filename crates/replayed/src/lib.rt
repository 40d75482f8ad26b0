// A recorded call (crates/recorded) made on the lent words.
#![tactic(auto)]

pub mod acts;
mod asks;
mod kinds;
