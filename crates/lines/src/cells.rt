// Numbers as text, and bytes put in a line.
ghost use Rattle.std.specs.Prelude.{◌≡◌, ◌+◌, ◌≤◌, length};
ghost use Rattle.lines.specs.Cells.{byte_of, rest_of, grouped, cell, column, put};

// Places count from the right; each fourth is a comma's.
fn byte_of(place: u64, rest: u64) -> u8
    ensures { result ≡ byte_of place rest }
{
    if place % 4 == 3 {
        if rest == 0 {
            return b' ';
        }
        return b',';
    }
    if rest == 0 {
        if place == 0 {
            return b'0';
        }
        return b' ';
    }
    b'0' + (rest % 10) as u8
}

// What is left of the number before the place.
fn rest_of(place: u64, rest: u64) -> u64
    ensures { result ≡ rest_of place rest }
{
    if place % 4 == 3 {
        return rest;
    }
    rest / 10
}

// The digits set right, grouped by thousands; 26 places hold every number.
pub fn grouped(n: u64) -> [u8; 26]
    ensures { result ≡ grouped n }
{
    let mut l: [u8; 26] = [b' '; 26];
    let mut rest = n;
    for k in 0..26 {
        l[25 - k] = byte_of(k as u64, rest);
        rest = rest_of(k as u64, rest);
    }
    l
}

fn cell(n: Option<u64>) -> [u8; 26]
    ensures { result ≡ cell n }
{
    match n {
        Some(n) => grouped(n),
        None => [b' '; 26],
    }
}

// The bytes from a place on.
pub(crate) fn put(line: [u8; 81], place: usize, s: &[u8]) -> [u8; 81]
    requires { place + length s.now ≤ 81 }
    ensures { result ≡ put place s.now line }
{
    let mut l = line;
    l[place..place + s.len()].copy_from_slice(s);
    l
}

// A number, or blanks, in a column of that width, from a place on.
pub(crate) fn put_number(line: [u8; 81], place: usize, width: usize, n: Option<u64>) -> [u8; 81]
    requires { (width ≤ 26) × (place + width ≤ 81) }
    ensures { result ≡ put place (column width n) line }
{
    let l = cell(n);
    put(line, place, &l[26 - width..])
}
