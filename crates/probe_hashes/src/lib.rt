// SPECIFICATION 6.8: the planned hashes of a prefix probe by value, a row of four words each, and the whole answer, of words that hold a window.
#![tactic(auto)]

ghost use Rattle.std.specs.Prelude.{◌≡◌, cond, ◌≤◌, ◌<◌, length, get_or, leb};
ghost use Rattle.model.specs.Numbers.{min_estimate};
ghost use Rattle.model.specs.Lists.{pad};
ghost use Rattle.model.specs.Hash.{hash_words};
ghost use Rattle.model.specs.Layout.{window_of, blank, planned_words};
ghost use Rattle.model.specs.Races.{win_blocks, prefix_probe_plan};
ghost use Rattle.model.specs.Queries.{plan_values};
ghost use Rattle.model.specs.Perform.{says};
ghost use Rattle.laws.specs.Pending.{Ranged};
ghost use Rattle.laws.specs.Whole.{Whole};
ghost use Rattle.plans.specs.Answers.{planned_part, plan_answer_says};
ghost use Rattle.plans.specs.Rows.{rows_words};
ghost use Rattle.probe_plan.specs.Plans.{Plans};
ghost use Rattle.probe_hashes.specs.Rows.{hashes_of};

use model::{Words, sizes};
use plans::PlanAnswer;
use probe_plan::Planning;

// The hash of an entry.
fn row_at(words: &Words, at: usize) -> [u64; 4]
    requires { Whole words.now × (at < length (window_of words.now).queue.pending) }
    ensures { result ≡ hash_words (get_or (window_of words.now).queue.pending at blank).hash }
{
    let e = state_queue::entry_at(words, at);
    let h = e.hash;
    [h.a, h.b, h.c, h.d]
}

// A walk of fewer than four plans nothing.
fn how_many(n: usize) -> usize
    ensures { result ≡ cond (leb win_blocks n) n 0 }
{
    if n < sizes::WIN_BLOCKS {
        return 0;
    }
    n
}

// The hashes of `prefix_probe_plan`, and 0 after them.
pub fn plan_hashes(words: &Words, p: Planning) -> [[u64; 4]; 8]
    requires { Whole words.now × Plans p (window_of words.now) }
    ensures { rows_words 8 result ≡ planned_words (hashes_of (prefix_probe_plan (window_of words.now))) }
{
    let places = p.places;
    let n = how_many(p.n);
    let mut rows: [[u64; 4]; 8] = [[0; 4]; 8];
    for i in 0..n {
        let row = row_at(words, places[i]);
        rows[i] = row;
    }
    rows
}

// `prefix_probe_plan`, whole: its numbers and its hashes.
pub fn prefix_probe_plan(words: &Words) -> PlanAnswer
    requires { Whole words.now × (Ranged (window_of words.now) × (min_estimate ≤ (window_of words.now).mean)) }
    ensures { (plan_answer_says result ≡ says 0 (plan_values (prefix_probe_plan (window_of words.now))))
        × (result.hashes ≡ pad 32 0 (planned_part result)) }
{
    let p = probe_plan::make_plan(words);
    let rows = plan_hashes(words, p);
    PlanAnswer {
        plan: Ok(probe_plan::header_of(p)),
        hashes: plans::planned_list(rows),
    }
}
