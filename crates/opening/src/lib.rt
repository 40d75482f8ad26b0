// SPECIFICATION 7.1: the opening, on any 4,096 words.
#![tactic(auto)]

ghost use Rattle.std.specs.Prelude.{◌≡◌};
ghost use Rattle.model.specs.Calls.{opened};
ghost use Rattle.model.specs.Layout.{decode};
ghost use Rattle.laws.specs.Tables.{with_keys};
ghost use Rattle.laws.specs.Whole.{Holds};
ghost use Rattle.opening.specs.Blank.{blank_table};

use model::{PerSeat, Settings, Words, at, head, limits};

// The words of a new window's head that are not 0, beside clock, settings and stall wait (docs/LAYOUT.md): format, mean, frontier.
const MEAN: u64 = 262_144;

const FRONTIER: u64 = 1;

// `blank_table`
fn clear(words: &mut Words)
    ensures { decode words.new ≡ blank_table }
{
    column::clear_from(words, 0);
}

fn set_keys(words: &mut Words, keys: &PerSeat)
    ensures { decode words.new ≡ with_keys keys.now (decode words.old) }
{
    column::copy_over(&mut words[at::KEYS..at::COOLING], keys);
}

// `opened`: format, clock, mean and frontier; settings, keys and the first stall wait; all else is 0, so the count of records, the total and the high
// waters of blocks and bytes too.
pub fn open(words: &mut Words, clock: u64, b: Settings, keys: &PerSeat)
    ensures { Holds (opened clock b keys.now) words.new }
{
    let counts = [limits::FORMAT, 0, clock, 0, 0, 0, MEAN, FRONTIER];
    let old = layout::load_pace(words);
    let p = lent_pace::lend_at_opening(old, b);
    clear(words);
    set_keys(words, keys);
    layout::store_at(words, head::FORMAT, &counts);
    layout::store_settings(words, b);
    layout::store_pace(words, p);
}
