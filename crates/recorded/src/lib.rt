// Recorded calls as numbers (crates/vectors/VECTORS.md): how they are read, where the parts of a record stand, what a call said as words, and whether that
// is what was recorded. Nothing here makes a call.
#![tactic(auto)]

pub mod answers;
pub mod arguments;
pub mod compare;
pub mod input;
pub mod runs;
pub mod stream;

use model::{Settings, sizes};

// The arguments of `open`.
#[derive(Clone, Copy)]
pub struct Opening {
    pub settings: Settings,
    pub keys: [u64; 256],
    pub clock: u64,
}

// What a call said: its fields as crates/flat has them, how many places of its report it filled, and the report, all of it: a place that was not filled
// is compared too.
#[derive(Clone, Copy)]
pub struct Said {
    pub fields: [u64; 32],
    pub places: usize,
    pub gone: [u64; sizes::REPORT_WORDS],
}

// So many numbers from a place on.
#[derive(Clone, Copy)]
pub struct Part {
    pub at: u64,
    pub n: u64,
}

// A record: the number of its call, as it stands, since a number that names no call is told too; where its arguments begin; the answer's fields; how many
// places of the report are filled, and their words; where the runs of changed words begin, and the next record.
#[derive(Clone, Copy)]
pub struct Record {
    pub number: u64,
    pub args: u64,
    pub answer: Part,
    pub places: u64,
    pub gone: Part,
    pub runs: u64,
    pub next: u64,
}

// What is as recorded: the refusal and the rest of the answer; of the report how many places are filled, the order of their hashes, the other values and
// the reasons; and all words.
#[derive(Clone, Copy)]
pub struct Same {
    pub refusal: bool,
    pub answer: bool,
    pub count: bool,
    pub order: bool,
    pub values: bool,
    pub reasons: bool,
    pub words: bool,
}
