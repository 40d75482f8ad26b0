// Equality and order of hashes in the model's words: `==` and `<` go word by word, the model compares the numbers that the 32 bytes make.
#![tactic(auto)]

ghost use Rattle.std.specs.Prelude.{◌≡◌, ◌&&◌, eqb};
ghost use Rattle.model.specs.Hash.{same, less};

use model::Hash;

// `same`
#[tactic(auto, using(crate::specs::Words::equal_is))]
pub fn equal(g: Hash, h: Hash) -> bool
    ensures { result ≡ same g h }
{
    g == h
}

// Whether a number and a hash are the same as others: owner and front of an episode or of a cold front, height and hash of a frontier.
pub fn same_both(a: u64, b: u64, g: Hash, h: Hash) -> bool
    ensures { result ≡ (eqb a b && same g h) }
{
    a == b && equal(g, h)
}

// `less`
#[tactic(auto, using(crate::specs::Words::less_is))]
pub fn less(g: Hash, h: Hash) -> bool
    ensures { result ≡ less g h }
{
    g < h
}
