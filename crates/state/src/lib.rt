// The window's parts in the 4,096 lent words. A getter reads a part of the window that the words say. A setter is lent words that hold a window and
// nothing else (`Whole`), and leaves them so, with that part replaced (`Holds`): so calls compose as steps on windows.
// `Whole` is a clause, no type: a struct that borrows the words must promise at every step that it holds the same borrow still (DECISIONS 58).
// One getter and one setter a part: a trait over the parts would say each equation in its impl, and again where it is used.
#![tactic(auto)]

ghost use Rattle.std.specs.Prelude.{◌≡◌, ◌<◌, ◌≤◌, get_or};
ghost use Rattle.model.specs.Layout.{window_of, source_word};
ghost use Rattle.model.specs.Cooling.{key_of};
ghost use Rattle.model.specs.Time.{active};
ghost use Rattle.model.specs.Window.{with_clock, with_mean, with_frontier, with_fanout, with_pace, with_cold, with_preferred, with_attempted, with_stall, with_stuck, with_observation};
ghost use Rattle.laws.specs.Whole.{Whole, Holds};
ghost use Rattle.states.specs.Fits.{stall_fits, stuck_fits, cold_fits};

use model::{
    ColdFront, Fanout, Observation, Pace, Settings, StallEpisode, StuckFrontier, Words, head,
};

// ---- the head's numbers

pub fn get_settings(words: &Words) -> Settings
    ensures { result ≡ (window_of words.now).settings }
{
    layout::load_settings(words)
}

pub fn get_clock(words: &Words) -> u64
    ensures { result ≡ (window_of words.now).clock }
{
    layout::word_of(words, head::LAST_CLOCK)
}

pub fn set_clock(words: &mut Words, c: u64)
    requires { Whole words.old }
    ensures { Holds (with_clock c (window_of words.old)) words.new }
{
    layout::set_word(words, head::LAST_CLOCK, c);
}

pub fn get_mean(words: &Words) -> u64
    ensures { result ≡ (window_of words.now).mean }
{
    layout::word_of(words, head::MEAN)
}

pub fn set_mean(words: &mut Words, m: u64)
    requires { Whole words.old }
    ensures { Holds (with_mean m (window_of words.old)) words.new }
{
    layout::set_word(words, head::MEAN, m);
}

pub fn get_frontier(words: &Words) -> u64
    ensures { result ≡ (window_of words.now).frontier }
{
    layout::word_of(words, head::FRONTIER)
}

pub fn set_frontier(words: &mut Words, f: u64)
    requires { Whole words.old }
    ensures { Holds (with_frontier f (window_of words.old)) words.new }
{
    layout::set_word(words, head::FRONTIER, f);
}

pub fn get_total(words: &Words) -> u64
    ensures { result ≡ (window_of words.now).queue.total }
{
    layout::word_of(words, head::TOTAL)
}

pub fn get_high_blocks(words: &Words) -> u64
    ensures { result ≡ (window_of words.now).high.blocks }
{
    layout::word_of(words, head::HIGH_BLOCKS)
}

pub fn get_high_bytes(words: &Words) -> u64
    ensures { result ≡ (window_of words.now).high.bytes }
{
    layout::word_of(words, head::HIGH_BYTES)
}

// ---- fan-out and pace

pub fn get_fanout(words: &Words) -> Fanout
    ensures { result ≡ (window_of words.now).fanout }
{
    layout::load_fanout(words)
}

pub fn set_fanout(words: &mut Words, f: Fanout)
    requires { Whole words.old }
    ensures { Holds (with_fanout f (window_of words.old)) words.new }
{
    layout::store_fanout(words, f);
}

pub fn get_pace(words: &Words) -> Pace
    ensures { result ≡ (window_of words.now).pace }
{
    layout::load_pace(words)
}

pub fn set_pace(words: &mut Words, p: Pace)
    requires { Whole words.old }
    ensures { Holds (with_pace p (window_of words.old)) words.new }
{
    layout::store_pace(words, p);
}

// ---- races

pub fn get_cold(words: &Words) -> ColdFront
    ensures { result ≡ (window_of words.now).races.cold }
{
    states::load_cold(words)
}

pub fn set_cold(words: &mut Words, x: ColdFront)
    requires { Whole words.old × cold_fits x }
    ensures { Holds (with_cold x (window_of words.old)) words.new }
{
    states::store_cold(words, x);
}

pub fn get_preferred(words: &Words) -> Option<u64>
    ensures { result ≡ (window_of words.now).races.preferred }
{
    layout::load_source(words, head::PREFERRED)
}

pub fn set_preferred(words: &mut Words, x: Option<u64>)
    requires { Whole words.old × (source_word x ≤ 256) }
    ensures { Holds (with_preferred x (window_of words.old)) words.new }
{
    layout::store_source(words, head::PREFERRED, x);
}

pub fn get_attempted(words: &Words) -> Option<u64>
    ensures { result ≡ (window_of words.now).races.attempted }
{
    layout::load_source(words, head::ATTEMPTED)
}

pub fn set_attempted(words: &mut Words, x: Option<u64>)
    requires { Whole words.old × (source_word x ≤ 256) }
    ensures { Holds (with_attempted x (window_of words.old)) words.new }
{
    layout::store_source(words, head::ATTEMPTED, x);
}

// ---- watch

pub fn get_stall(words: &Words) -> Option<StallEpisode>
    ensures { result ≡ (window_of words.now).watch.stall }
{
    states::load_stall(words)
}

pub fn set_stall(words: &mut Words, x: Option<StallEpisode>)
    requires { Whole words.old × stall_fits x }
    ensures { Holds (with_stall x (window_of words.old)) words.new }
{
    states::store_stall(words, x);
}

pub fn get_stuck(words: &Words) -> Option<StuckFrontier>
    ensures { result ≡ (window_of words.now).watch.stuck }
{
    states::load_stuck(words)
}

pub fn set_stuck(words: &mut Words, x: Option<StuckFrontier>)
    requires { Whole words.old × stuck_fits x }
    ensures { Holds (with_stuck x (window_of words.old)) words.new }
{
    states::store_stuck(words, x);
}

pub fn get_observation(words: &Words) -> Observation
    ensures { result ≡ (window_of words.now).watch.observation }
{
    states::load_observation(words)
}

pub fn set_observation(words: &mut Words, x: Observation)
    requires { Whole words.old }
    ensures { Holds (with_observation x (window_of words.old)) words.new }
{
    states::store_observation(words, x);
}

// ---- the tables by seat and key

pub fn start_of(words: &Words, seat: usize) -> u64
    requires { seat < 256 }
    ensures { result ≡ get_or (window_of words.now).queue.starts seat 0 }
{
    seats::start_of(words, seat)
}

pub fn body_of(words: &Words, seat: usize) -> u64
    requires { seat < 256 }
    ensures { result ≡ get_or (window_of words.now).queue.bodies seat 0 }
{
    seats::body_of(words, seat)
}

pub fn racer_of(words: &Words, seat: usize) -> u64
    requires { seat < 256 }
    ensures { result ≡ get_or (window_of words.now).races.racers seat 0 }
{
    seats::racer_of(words, seat)
}

pub fn key_of(words: &Words, seat: usize) -> u64
    requires { seat < 256 }
    ensures { result ≡ key_of seat (window_of words.now) }
{
    seats::key_of(words, seat)
}

// `active`: the seats that have a start.

pub fn active_peers(words: &Words) -> u64
    ensures { result ≡ active (window_of words.now) }
{
    seats::active_downloading_peers(words)
}
