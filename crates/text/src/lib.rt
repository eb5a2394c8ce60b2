// Text in a lent buffer: bytes, words and decimal numbers, each put on a page after what was put before.

#![tactic(auto)]

ghost use Rattle.std.specs.Prelude.{[], ◌∷◌, ◌≡◌, length};
ghost use Rattle.text.specs.Text.{decimal, number, last_digits, sign, spaces};

// A lent buffer, and the place of its next byte.
#[derive(Drop)]
pub struct Page<'a> {
    out: &'a mut [u8],
    pub at: usize,
}

impl<'a> Page<'a> {
    ghost use Rattle.text.specs.Inner.{IsStartOf, HasRoom, Puts};

    // A page at the buffer's start.
    pub fn new(out: &'a mut [u8]) -> Page<'a>
        ensures { IsStartOf out.entry result }
    {
        Page { out, at: 0 }
    }

    // Puts one byte.
    pub fn put_byte(&mut self, byte: u8)
        requires { HasRoom self.old 1 }
        ensures { Puts self.old (byte ∷ []) self.new }
    {
        self.out[self.at] = byte;
        self.at += 1;
    }

    // Puts a word as it stands.
    pub fn put_word(&mut self, word: &str)
        requires { HasRoom self.old (length word.now) }
        ensures { Puts self.old word.now self.new }
    {
        let end = self.at + word.len();
        self.out[self.at..end].copy_from_slice(word.as_bytes());
        self.at = end;
    }

    // Puts so many spaces.
    pub fn put_spaces(&mut self, count: usize)
        requires { HasRoom self.old count }
        ensures { Puts self.old (spaces count) self.new }
    {
        let end = self.at + count;
        self.out[self.at..end].fill(b' ');
        self.at = end;
    }

    // Puts a natural number in decimal.
    // By hand, since std's `write!` promises its bytes only where it answers `Ok`, and this can't fail.
    pub fn put_decimal(&mut self, n: u64)
        requires { HasRoom self.old (length (decimal n)) }
        ensures { Puts self.old (decimal n) self.new }
    {
        self.put_last(digits_in(n), n);
    }

    // Puts a minus sign, or nothing.
    #[tactic(auto, using(crate::proofs::Puts::puts_none), unfolding(crate::specs::Text::sign, crate::specs::Text::ascii))]
    pub fn put_sign(&mut self, negative: bool)
        requires { HasRoom self.old (length (sign negative)) }
        ensures { Puts self.old (sign negative) self.new }
    {
        if negative {
            self.put_byte(b'-');
        }
    }

    // Puts a number in decimal, a negative one after its sign.
    pub fn put_number(&mut self, z: i64)
        requires { HasRoom self.old (length (number z)) }
        ensures { Puts self.old (number z) self.new }
    {
        self.put_sign(z < 0);
        self.put_decimal(z.unsigned_abs());
    }

    // Puts the last digits of a number.
    pub fn put_last(&mut self, count: usize, n: u64)
        requires { HasRoom self.old count }
        ensures { Puts self.old (last_digits count n) self.new }
    {
        let after = self.at + count;
        put_digits(&mut self.out[self.at..after], n);
        self.at = after;
    }
}

// Fills a text with a number's last digits, from the last one on.
fn put_digits(text: &mut [u8], n: u64)
    ensures { text.new ≡ last_digits (length text.old) n }
{
    if 0 < text.len() {
        let last = text.len() - 1;
        text[last] = b'0' + (n % 10) as u8;
        put_digits(&mut text[..last], n / 10);
    }
}

// How many digits a number has in decimal.
pub fn digits_in(n: u64) -> usize
    ensures { result ≡ length (decimal n) }
{
    n.max(1).ilog10() as usize + 1
}
