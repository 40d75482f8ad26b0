// The check as a C function, for bench/check and damage.
#![tactic(auto)]

ghost use Rattle.std.specs.Prelude.{◌≡◌, ◌&&◌};
ghost use Rattle.model.specs.Layout.{is_window};
ghost use Rattle.model.specs.Refusals.{is_long};

#[unsafe(no_mangle)]
pub extern "C" fn check_words(words: &[u64]) -> bool
    ensures { result ≡ (is_long words.now && is_window words.now) }
{
    check_window::is_window(words)
}
