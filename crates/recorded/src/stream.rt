// Places among the recorded numbers, and what stands there.
ghost use Rattle.std.specs.Prelude.{◌≡◌, ◌≤◌, ℕ, min, take, slice_index};
ghost use Rattle.recorded.specs.Stream.{on, nth, low, is_set, perhaps, perhaps_height, hash_from, row_at};

use model::Hash;

// The recorded numbers from a place on. A place wraps at 64 bits; past the end there are zeros.
#[derive(Clone, Copy)]
pub struct Place<'a> {
    pub numbers: &'a [u64],
    pub at: u64,
}

impl<'a> Place<'a> {
    // The number at the place.
    pub(crate) fn get(self) -> u64
        ensures { result ≡ slice_index self.entry.numbers.now self.entry.at }
    {
        self.numbers.get(self.at as usize).copied().unwrap_or(0)
    }

    // k places on.
    pub(crate) fn on(self, k: u64) -> Place<'a>
        ensures { (result.numbers.now ≡ self.entry.numbers.now) × (result.at ≡ on self.entry.at k) }
    {
        Place {
            numbers: self.numbers,
            at: self.at.wrapping_add(k),
        }
    }

    // The number k places on.
    pub fn nth(self, k: u64) -> u64
        ensures { result ≡ nth self.entry.numbers.now self.entry.at k }
    {
        self.on(k).get()
    }

    pub fn is_set(self, k: u64) -> bool
        ensures { result ≡ is_set (nth self.entry.numbers.now self.entry.at k) }
    {
        self.nth(k) != 0
    }

    // A height has 32 bits.
    pub fn height(self, k: u64) -> u32
        ensures { result ≡ low (nth self.entry.numbers.now self.entry.at k) }
    {
        u32::of_number(self.nth(k))
    }

    // A number that may be missing, by the number before it.
    pub fn perhaps(self, k: u64) -> Option<u64>
        ensures { result ≡ perhaps self.entry.numbers.now self.entry.at k }
    {
        self.is_set(k).then_some(self.nth(k.wrapping_add(1)))
    }

    // A height that may be missing, in the same way.
    pub fn perhaps_height(self, k: u64) -> Option<u32>
        ensures { result ≡ perhaps_height self.entry.numbers.now self.entry.at k }
    {
        self.is_set(k).then_some(self.height(k.wrapping_add(1)))
    }

    // Four numbers are a hash.
    pub fn hash(self, k: u64) -> Hash
        ensures { result ≡ hash_from self.entry.numbers.now (on self.entry.at k) }
    {
        let p = self.on(k);
        Hash {
            a: p.nth(0),
            b: p.nth(1),
            c: p.nth(2),
            d: p.nth(3),
        }
    }
}

// What a recorded number is in a list: itself, or a height, which has 32 bits.
pub trait Number: Copy + Drop {
    ghost of: { ℕ → Self };

    fn of_number(n: u64) -> Self
        ensures { result ≡ of n };
}

impl Number for u64 {
    ghost of = { λ n. n };

    fn of_number(n: u64) -> u64 {
        n
    }
}

impl Number for u32 {
    ghost of = { λ n. low n };

    fn of_number(n: u64) -> u32 {
        (n % 4_294_967_296) as u32
    }
}

// So many numbers from a place on.
pub fn row<T: Number, const N: usize>(from: Place) -> [T; N]
    ensures { result ≡ row_at T.of N from.entry.numbers.now from.entry.at }
{
    let mut l = [T::of_number(0); N];
    for (i, x) in l.iter_mut().enumerate() {
        *x = T::of_number(from.nth(i as u64));
    }
    l
}

// A list in a room for N, of which the first n count: there is no heap, and past the end of the numbers, where a slice of them would stop, it has zeros.
#[derive(Clone, Copy)]
pub struct Listed<T: Copy, const N: usize> {
    pub room: [T; N],
    pub n: usize,
}

impl<T: Copy, const N: usize> Listed<T, N> {
    pub fn as_slice(&self) -> &[T]
        requires { self.now.n ≤ N }
        ensures { result.now ≡ take self.entry.now.n self.entry.now.room }
    {
        &self.room[..self.n]
    }
}

// n numbers from a place on, or the most.
pub(crate) fn list_at<T: Number, const N: usize>(n: u64, from: Place) -> Listed<T, N>
    ensures { (result.room ≡ row_at T.of N from.entry.numbers.now from.entry.at) × (result.n ≡ min n N) × (result.n ≤ N) }
{
    Listed {
        room: row(from),
        n: n.min(N as u64) as usize,
    }
}
