// Bytes and numbers put from a place on.
ghost use Rattle.std.specs.Prelude.{◌≡◌, [], ◌∷◌, ◌+◌, ◌^◌, ◌<◌, length, set};
ghost use Rattle.format.specs.Digits.{digit_of};
ghost use Rattle.text.specs.Decimal.{decimal_of};
ghost use Rattle.text.specs.Puts.{Writes};

// One byte, at this place.
pub fn put(byte: u8, at: usize, space: &mut [u8])
    ensures { space.new ≡ set space.old at byte }
{
    if at < space.len() {
        space[at] = byte;
    }
}

// A level as text: 1 is high.
pub fn level_digit(level: bool) -> u8
    ensures { result ≡ digit_of level }
{
    b'0' + u8::from(level)
}

// Lent space, and the place in it that the text has come to.
// Kept: each routine asks that its own text end below 2^64, for the place counts past the space too.
#[derive(Drop)]
pub struct Page<'a> {
    pub space: &'a mut [u8],
    pub at: usize,
}

impl Page<'_> {
    // One byte.
    pub fn put(&mut self, byte: u8)
        requires { self.old.at + 1 < 2 ^ 64 }
        ensures { Writes (byte ∷ []) self.old self.new }
    {
        put(byte, self.at, self.space);
        self.at += 1;
    }

    // Bytes one after the other.
    pub fn put_bytes(&mut self, bytes: &[u8])
        requires { self.old.at + length bytes.now < 2 ^ 64 }
        ensures { Writes bytes.now self.old self.new }
    {
        for byte in bytes {
            self.put(*byte);
        }
    }

    // A number in decimal that has at most so many places.
    // Kept: a recursion, not the kit's `itoa`: it puts the last `places` digits, and an edit stands on its `% 10`.
    pub fn put_decimal(&mut self, number: u64, places: usize)
        requires { self.old.at + places < 2 ^ 64 }
        ensures { Writes (decimal_of places number) self.old self.new }
    {
        if places == 0 {
            return;
        }
        if number >= 10 {
            self.put_decimal(number / 10, places - 1);
        }
        self.put(b'0' + (number % 10) as u8);
    }
}
