// Operations on one column of words, in place. A column is a whole slice: the places past the live ones hold 0, so that an operation on all of
// the column is the operation on its live places, and no contract names how many are live.
#![tactic(auto)]

ghost use Rattle.std.specs.Prelude.{◌≡◌, cond, ◌++◌, ◌∷◌, [], ◌-◌, ◌<◌, ◌≤◌, length, set, take, replicate, eqb};
ghost use Rattle.column.specs.Edits.{remove_at, inserted, kept_by};

// Takes the first word out: those after it move one place down, and the last place becomes 0.
fn remove_first(col: &mut [u64])
    requires { 0 < length col.old }
    ensures { col.new ≡ remove_at 0 col.old ++ (0 ∷ []) }
{
    let last = col.len() - 1;
    col.copy_within(1.., 0);
    col[last] = 0;
}

// Takes the word at `at` out: those after it move one place down, and the last place becomes 0.
pub fn remove_at(col: &mut [u64], at: usize)
    requires { at < length col.old }
    ensures { col.new ≡ remove_at at col.old ++ (0 ∷ []) }
{
    remove_first(&mut col[at..]);
}

// Copies `src` over `dst`, which is as long.
pub fn copy_over(dst: &mut [u64], src: &[u64])
    requires { length dst.old ≡ length src.now }
    ensures { dst.new ≡ src.now }
{
    dst.copy_from_slice(src);
}

// Puts `value` at the first place: all words move one place up, and the last falls off.
fn insert_first(col: &mut [u64], value: u64)
    ensures { col.new ≡ inserted 0 value col.old }
{
    let n = col.len();
    if 0 < n {
        col.copy_within(0..n - 1, 1);
        col[0] = value;
    }
}

// Puts `value` at `at`: the words from there on move one place up, and the last falls off.
pub fn insert_at(col: &mut [u64], at: usize, value: u64)
    requires { at ≤ length col.old }
    ensures { col.new ≡ inserted at value col.old }
{
    insert_first(&mut col[at..], value);
}

// Puts 0 in the places from `from` on.
pub fn clear_from(col: &mut [u64], from: usize)
    requires { from ≤ length col.old }
    ensures { col.new ≡ take from col.old ++ replicate (length col.old - from) 0 }
{
    col[from..].fill(0);
}

// 1 where a word's mark is 0, so that it stays, else 0.
fn places_on(mark: u64) -> usize
    ensures { result ≡ cond (eqb mark 0) 1 0 }
{
    if mark == 0 { 1 } else { 0 }
}

// Keeps the words whose mark is 0, in order, from the first place on, and puts 0 in the places that are left. Each word is copied, and the place
// moves on only if it stays: no branch, which a mix of marks would mispredict.
pub fn keep_unmarked(col: &mut [u64], marks: &[u64])
    requires { length marks.now ≡ length col.old }
    ensures { col.new ≡ kept_by marks.now 0 col.old }
{
    let mut j = 0;
    for (i, mark) in marks.iter().enumerate() {
        col[j] = col[i];
        j += places_on(*mark);
    }
    clear_from(col, j);
}

// One word.
pub fn store(col: &mut [u64], at: usize, value: u64)
    requires { at < length col.old }
    ensures { col.new ≡ set col.old at value }
{
    col[at] = value;
}
