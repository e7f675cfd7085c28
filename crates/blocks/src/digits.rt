// The digits of a word, read and put eight at a time.
ghost use Rattle.std.specs.Prelude.{◌≡◌, true, ◌+◌, ◌≤◌, ◌<◌, ◌^◌, length};
ghost use Rattle.figures.specs.Bytes.{every};
ghost use Rattle.figures.specs.Decimal.{is_digit, number_of, digits_of};
ghost use Rattle.words.specs.Records.{width};
ghost use Rattle.words.specs.Reading.{word_size, data_in};

// Gives the number that digits say. A digit is widened before 48 goes off it, which costs a step less (docs/BENCHMARK.md).
pub(crate) fn number_of(s: &[u8]) -> u64
    requires { (length s.now ≤ 16) × (every is_digit s.now ≡ true) }
    ensures { (result ≡ number_of s.now) × (result < 10 ^ length s.now) }
{
    let mut n = 0;
    for b in s {
        n = n * 10 + (u64::from(*b) - 48);
    }
    n
}

// Gives the number that the data of a word say, where they are digits.
pub(crate) fn number_at(s: &[u8], wide: bool) -> u64
    requires { (word_size wide ≤ length s.now) × (every is_digit (data_in wide s.now) ≡ true) }
    ensures { result ≡ number_of (data_in wide s.now) }
{
    let first = number_of(&s[7..15]);
    if wide {
        return first * 100_000_000 + number_of(&s[15..23]);
    }
    first
}

fn figure_of(n: u64) -> u8
    requires { n < 10 }
    ensures { result ≡ 48 + n }
{
    b'0' + n as u8
}

// Fills four bytes with the digits of n.
fn put_four(n: u64, out: &mut [u8])
    requires { (length out.old ≡ 4) × (n < 10_000) }
    ensures { out.new ≡ digits_of 4 n }
{
    let high = n / 100;
    let low = n % 100;
    out[0] = figure_of(high / 10);
    out[1] = figure_of(high % 10);
    out[2] = figure_of(low / 10);
    out[3] = figure_of(low % 10);
}

// Fills eight bytes with the digits of n.
fn put_eight(n: u64, out: &mut [u8])
    requires { (length out.old ≡ 8) × (n < 100_000_000) }
    ensures { out.new ≡ digits_of 8 n }
{
    put_four(n / 10_000, &mut out[0..4]);
    put_four(n % 10_000, &mut out[4..8]);
}

// Fills the data of a word with the digits of n.
pub(crate) fn put_digits(n: u64, wide: bool, out: &mut [u8])
    requires { (length out.old ≡ width wide) × (n < 10 ^ width wide) }
    ensures { out.new ≡ digits_of (width wide) n }
{
    if wide {
        put_eight(n / 100_000_000, &mut out[0..8]);
        put_eight(n % 100_000_000, &mut out[8..16]);
    } else {
        put_eight(n, out);
    }
}
