// The planned hashes, by value, a row of four words each: as they are answered, and written to the head.
#![tactic(auto)]

ghost use Rattle.std.specs.Prelude.{◌≡◌};
ghost use Rattle.model.specs.Layout.{decode};
ghost use Rattle.model.specs.Places.{head_probe_hashes};
ghost use Rattle.laws.specs.Tables.{with_words};
ghost use Rattle.plans.specs.Rows.{rows_words, words_from};

use model::{Plan, Refusal, Words, head, sizes};

// What `prefix_probe_plan` answers: the plan's numbers, or the refusal, and beside them the words of eight hashes, 0 after the planned ones.
#[derive(Clone, Copy)]
pub struct PlanAnswer {
    pub plan: Result<Option<Plan>, Refusal>,
    pub hashes: [u64; sizes::PLANNED_WORDS],
}

// `rows_words` of eight rows; its contract has that name's body, which computes, so that the prover finds the proof.
pub fn planned_list(hs: [[u64; 4]; 8]) -> [u64; sizes::PLANNED_WORDS]
    ensures { result ≡ words_from 0 8 hs }
{
    [
        hs[0][0], hs[0][1], hs[0][2], hs[0][3], hs[1][0], hs[1][1], hs[1][2], hs[1][3], hs[2][0],
        hs[2][1], hs[2][2], hs[2][3], hs[3][0], hs[3][1], hs[3][2], hs[3][3], hs[4][0], hs[4][1],
        hs[4][2], hs[4][3], hs[5][0], hs[5][1], hs[5][2], hs[5][3], hs[6][0], hs[6][1], hs[6][2],
        hs[6][3], hs[7][0], hs[7][1], hs[7][2], hs[7][3],
    ]
}

pub fn store_planned(words: &mut Words, hs: [[u64; 4]; 8])
    ensures { decode words.new ≡ with_words head_probe_hashes (rows_words 8 hs) (decode words.old) }
{
    let l = planned_list(hs);
    layout::store_at(words, head::PROBE_HASHES, &l);
}
