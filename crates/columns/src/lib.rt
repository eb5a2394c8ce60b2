// Words and numbers at the end of so many columns, put on a page.

#![tactic(auto)]

ghost use Rattle.std.specs.Prelude.{List, ◌≡◌, ◌+◌, ◌/◌, ◌^◌, ◌≤◌, ◌<◌, ℕ, length};
ghost use Rattle.text.specs.Inner.{HasRoom, Puts};
ghost use Rattle.text.specs.Text.{decimal, padded};

use text::Page;

// What has a text.
pub trait Value {
    ghost text: { Self → List ℕ };

    // How many bytes the text has.
    fn len(&self) -> usize
        requires { length (text self.now) < 2 ^ 64 }
        ensures { result ≡ length (text self.now) };

    // Puts the text.
    fn put(&self, page: &mut Page)
        requires { HasRoom page.old (length (text self.now)) }
        ensures { Puts page.old (text self.now) page.new };
}

// Puts a value's text at the end of its columns. Where it is inlined, a number's scale is a constant, and no division is left.
#[inline(always)]
pub fn put<V: Value + Drop>(page: &mut Page, columns: usize, value: V)
    requires room { HasRoom page.old columns }
    requires within { length (V.text value) ≤ columns }
    ensures put { Puts page.old (padded columns (V.text value)) page.new }
    ensures filled { page.new.at ≡ page.old.at + columns }
{
    page.put_spaces(columns - value.len());
    value.put(page);
}

// A word is its own text.
impl Value for &str {
    ghost text = { λ word. word.now };

    fn len(&self) -> usize {
        str::len(self)
    }

    fn put(&self, page: &mut Page) {
        page.put_word(self);
    }
}

// A whole number, in decimal.
impl Value for u64 {
    ghost text = { decimal };

    fn len(&self) -> usize {
        text::digits_in(*self)
    }

    fn put(&self, page: &mut Page) {
        page.put_decimal(*self);
    }
}

// size / 10^decimals with its sign, each decimal written.
#[derive(Clone, Copy)]
pub struct Fixed {
    pub negative: bool,
    pub size: u64,
    pub decimals: u32,
    ghost scaled: { 10 ^ decimals < 2 ^ 64 },
}

impl Fixed {
    // What stands before the dot.
    fn whole(&self) -> u64
        ensures { result ≡ self.now.size / 10 ^ self.now.decimals }
    {
        self.size / 10u64.pow(self.decimals)
    }
}

impl Value for Fixed {
    ghost use Rattle.columns.specs.Fixed.{fixed};

    ghost text = { fixed };

    fn len(&self) -> usize {
        usize::from(self.negative) + text::digits_in(self.whole()) + 1 + self.decimals as usize
    }

    fn put(&self, page: &mut Page) {
        page.put_sign(self.negative);
        page.put_decimal(self.whole());
        page.put_byte(b'.');
        page.put_last(self.decimals as usize, self.size);
    }
}
