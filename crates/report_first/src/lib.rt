// A release put before those that are written: the delivered one is the first in the report, and is let go before the others are known.
#![tactic(auto)]

ghost use Rattle.std.specs.Prelude.{◌≡◌, ◌∷◌, ℕ, suc, ◌+◌, ◌<◌, get_or};
ghost use Rattle.report_words.specs.Report.{release_from, releases_of};

use model::{Gone, OneGone, sizes};

// All words move nine places up, and the last nine fall off.
fn make_room(gone: &mut Gone)
    ensures { (k : ℕ) → k < 2295 → get_or gone.new (9 + k) 0 ≡ get_or gone.old k 0 }
{
    gone.copy_within(
        ..sizes::REPORT_WORDS - sizes::RELEASE_WORDS,
        sizes::RELEASE_WORDS,
    );
}

// The nine words of a release before all others.
pub fn put_first(gone: &mut Gone, first: &OneGone)
    ensures { (n : ℕ) → n < 256 → releases_of (suc n) gone.new ≡ release_from first.now 0 ∷ releases_of n gone.old }
{
    make_room(gone);
    column::copy_over(&mut gone[0..sizes::RELEASE_WORDS], first);
}
