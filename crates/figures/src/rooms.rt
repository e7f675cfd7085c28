// Text put into a room from a place on, one part after the other, as far as there is room.
ghost use Rattle.std.specs.Prelude.{◌≡◌, ◌≤◌};
ghost use Rattle.figures.specs.Decimal.{digits_n, decimal_of};
ghost use Rattle.figures.specs.Rooms.{Fills};

// A room, and the place in it where the next part goes.
#[derive(Drop)]
pub struct Room<'a> {
    pub bytes: &'a mut [u8],
    pub at: usize,
}

impl<'a> Room<'a> {
    // Gives a room that is filled from its start.
    pub fn new(bytes: &'a mut [u8]) -> Room<'a>
        ensures bytes { result.bytes.now ≡ bytes.old }
        ensures at { result.at ≡ 0 }
        ensures same { result.bytes.ghost_name ≡ bytes.entry.ghost_name }
    {
        Room { bytes, at: 0 }
    }

    // Puts a text.
    pub fn put(&mut self, text: &[u8])
        ensures { Fills self.old text.now self.new }
    {
        if self.bytes.len() <= self.at {
            self.at = self.bytes.len();
            return;
        }
        let left = self.bytes.len() - self.at;
        crate::lay(text, &mut self.bytes[self.at..]);
        self.at += text.len().min(left);
    }

    // Puts a number in its fewest digits.
    pub fn put_decimal(&mut self, n: u64)
        ensures { Fills self.old (decimal_of n) self.new }
    {
        let k = digits_in(n);
        let mut bytes = [0; 20];
        crate::put_number(n, &mut bytes[..k]);
        self.put(&bytes[..k]);
    }
}

// Counts the digits of n.
fn digits_in(n: u64) -> usize
    ensures { (result ≡ digits_n n) × (result ≤ 20) }
{
    let mut left = n / 10;
    let mut k = 1;
    while 0 < left {
        left /= 10;
        k += 1;
    }
    k
}
