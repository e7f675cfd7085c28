// Decimal figures in bytes, and byte strings laid down or compared: what every layer above reads and writes with.
#![tactic(auto)]

pub mod pointing;
pub mod rooms;

ghost use Rattle.std.specs.Prelude.{◌≡◌, ◌≤◌, length};
ghost use Rattle.figures.specs.Decimal.{number_in, digits_of, is_digit};
ghost use Rattle.figures.specs.Bytes.{laid, starts_with, same_bytes, every, run_of, is_other, within};

// Tells whether a byte is a digit, `0` to `9`.
pub fn digit(b: u8) -> bool
    ensures { result ≡ is_digit b }
{
    matches!(b, b'0'..=b'9')
}

// Reads the number that the bytes say: none where one is no digit, or where there are more than a word can have.
#[tactic(auto, using(crate::proofs::Bytes::every_not, crate::proofs::Bytes::every_all, crate::proofs::Decimal::number_all))]
pub fn number(s: &[u8]) -> Option<u64>
    ensures { result ≡ number_in s.now }
{
    if 16 < s.len() {
        return None;
    }
    let mut n: u64 = 0;
    for b in s {
        if !digit(*b) {
            return None;
        }
        n = n * 10 + u64::from(*b - b'0');
    }
    Some(n)
}

// Fills the bytes with the last digits of n.
#[tactic(auto, using(crate::proofs::Decimal::digits_more, crate::proofs::Decimal::digits_done))]
pub fn put_number(n: u64, out: &mut [u8])
    ensures { out.new ≡ digits_of (length out.old) n }
{
    let mut left = n;
    for i in (0..out.len()).rev() {
        out[i] = b'0' + (left % 10) as u8;
        left /= 10;
    }
}

// Counts the bytes at the start that are from low to high: this is the place of the first that isn't, or the length.
pub fn run_within(s: &[u8], low: u8, high: u8) -> usize
    ensures { (result ≡ run_of (within low high) s.now) × (result ≤ length s.now) }
{
    s.iter()
        .position(|b| !(low <= *b && *b <= high))
        .unwrap_or(s.len())
}

// Tells whether every byte is from low to high. The loop never leaves early, so that many bytes are judged at once.
#[tactic(auto, using(crate::proofs::Bytes::within_on, crate::proofs::Bytes::every_all))]
pub fn all_within(s: &[u8], low: u8, high: u8) -> bool
    ensures { result ≡ every (within low high) s.now }
{
    let mut all = true;
    for b in s {
        all &= (low <= *b) & (*b <= high);
    }
    all
}

// Counts the bytes before the first b: this is its place, or the length.
pub fn run_before(s: &[u8], b: u8) -> usize
    ensures { (result ≡ run_of (is_other b) s.now) × (result ≤ length s.now) }
{
    s.iter().position(|x| *x == b).unwrap_or(s.len())
}

// Writes w from the start of the room, as far as there is room; what lies beyond is as it was.
#[tactic(auto, using(crate::proofs::Bytes::lay_more, crate::proofs::Bytes::lay_done))]
pub fn lay(w: &[u8], room: &mut [u8])
    ensures { room.new ≡ laid w.now room.old }
{
    let n = w.len().min(room.len());
    // by index, since what a loop writes through iter_mut and zip is known by its length alone; copy_from_slice calls memmove
    for i in 0..n {
        room[i] = w[i];
    }
}

// Tells whether s starts with w.
#[tactic(auto, using(crate::proofs::Bytes::starts_is))]
pub fn starts(s: &[u8], w: &[u8]) -> bool
    ensures { result ≡ starts_with w.now s.now }
{
    s.starts_with(w)
}

// Tells whether the two are the same bytes.
#[tactic(auto, using(crate::proofs::Bytes::same_is))]
pub fn same(a: &[u8], b: &[u8]) -> bool
    ensures { result ≡ same_bytes a.now b.now }
{
    a == b
}
