// Writing text into a buffer that may be too short for it, in the way of C's snprintf: bytes past the
// buffer's end are left out, and `end` is the index after the text all the same.
ghost use Rattle.std.specs.Prelude.{◌≡◌, [], ◌∷◌};
ghost use Rattle.listing.specs.Text.{decimal, Wrote, Room};

// A text from the start of a lent buffer to `end`.
#[derive(Drop)]
pub struct Text<'a> {
    pub out: &'a mut [u8],
    pub end: usize,
}

impl Text<'_> {
    // One byte.
    pub fn put(&mut self, byte: u8)
        requires { Room self.old.end (byte ∷ []) }
        ensures wrote { Wrote (byte ∷ []) self.old.end self.old.out.now self.new.out.now self.new.end }
        ensures same_buffer { self.new.out.ghost_name ≡ self.old.out.ghost_name }
    {
        if self.end < self.out.len() {
            self.out[self.end] = byte;
        }
        self.end += 1;
    }

    // A word.
    pub fn put_word(&mut self, word: &[u8])
        requires { Room self.old.end word.now }
        ensures wrote { Wrote word.now self.old.end self.old.out.now self.new.out.now self.new.end }
        ensures same_buffer { self.new.out.ghost_name ≡ self.old.out.ghost_name }
    {
        for byte in word {
            self.put(*byte);
        }
    }

    // A number in decimal.
    pub fn put_decimal(&mut self, n: u32)
        requires { Room self.old.end (decimal n) }
        ensures wrote { Wrote (decimal n) self.old.end self.old.out.now self.new.out.now self.new.end }
        ensures same_buffer { self.new.out.ghost_name ≡ self.old.out.ghost_name }
    {
        if n < 10 {
            self.put(b'0' + n as u8);
            return;
        }
        self.put_decimal(n / 10);
        self.put(b'0' + (n % 10) as u8);
    }
}
