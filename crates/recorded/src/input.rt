// The recorded numbers from their bytes: each is how many bytes it has, and its bytes, the highest first.
ghost use Rattle.std.specs.Prelude.{◌≡◌, length};
ghost use Rattle.recorded.specs.Input.{left_after, value_after, numbers_of, put_at, Keeps};

// A number that is read: how many bytes it still lacks, and its value so far.
#[derive(Clone, Copy)]
struct Begun {
    left: u64,
    value: u64,
}

impl Begun {
    // After one more byte: a first one says how many there are. 2^56 is what stays of 64 bits beside one more byte.
    #[tactic(auto, using(std::proofs::lemmas::Bool::Decides::nat_tests))]
    fn after(self, b: u8) -> Begun
        ensures { (result.left ≡ left_after self.left b) × (result.value ≡ value_after self.left self.value b) }
    {
        if self.left == 0 {
            return Begun {
                left: b as u64,
                value: 0,
            };
        }
        Begun {
            left: self.left - 1,
            value: self.value % 72_057_594_037_927_936 * 256 + b as u64,
        }
    }
}

// A whole number is kept, as long as there is room.
fn kept(out: &mut [u64], n: usize, begun: Begun) -> usize
    ensures { (length out.new ≡ length out.old) × Keeps n begun.left begun.value out.old out.new result }
{
    if begun.left != 0 {
        return n;
    }
    if n >= out.len() {
        return n;
    }
    out[n] = begun.value;
    n + 1
}

// Reads the bytes' numbers into `out`, as far as there is room.
pub fn read_numbers(bytes: &[u8], out: &mut [u64])
    ensures { out.new ≡ put_at 0 (numbers_of bytes.now) out.old }
{
    let mut begun = Begun { left: 0, value: 0 };
    let mut n: usize = 0;
    for b in bytes {
        begun = begun.after(*b);
        n = kept(out, n, begun);
    }
}
