// A model sheet's bytes: where its sections stand, and its numbers read.

#![tactic(auto)]

ghost use Rattle.std.specs.Prelude.{◌≡◌, ◌^◌, ◌≤◌, ◌<◌, nat_abs, length};
ghost use Rattle.sheet.specs.Accepted.{own_refusal};
ghost use Rattle.sheet.specs.Sheet.{line_count, tide_count, place_count, row_start, place_start, sheet_end, multipliers, admittance, degree, order, column, coefficient};
ghost use Rattle.sheet.specs.Inner.{Laid};

use arguments::Multipliers;

// The three counts, where the first row and the first place stand, and where the sheet ends.
#[derive(Clone, Copy)]
pub struct Layout {
    pub lines: usize,
    pub tides: usize,
    pub places: usize,
    pub rows: usize,
    pub first: usize,
    pub end: usize,
}

impl Layout {
    // The layout that any bytes have: counts of 16 bits overflow nothing.
    pub fn of(bytes: &[u8]) -> Layout
        ensures { Laid bytes.now result × (result.lines < 2 ^ 16) }
    {
        let lines = words::half_at(bytes, 0);
        let tides_at = 2 + 6 * lines;
        let tides = words::half_at(bytes, tides_at);
        let count_at = tides_at + 2 + 4 * (lines * tides);
        let places = words::half_at(bytes, count_at);
        Layout {
            lines,
            tides,
            places,
            rows: tides_at + 2,
            first: count_at + 2,
            end: count_at + 2 + (2 + 16 * tides) * places,
        }
    }
}

// What a place has for each tide, in the order of its words.
#[derive(Clone, Copy, Debug, PartialEq, Eq)]
pub enum Column {
    CCos,
    SCos,
    CSin,
    SSin,
}

impl Column {
    fn number(self) -> usize
        ensures { (result ≡ column self) × (result < 4) }
    {
        match self {
            Column::CCos => 0,
            Column::SCos => 1,
            Column::CSin => 2,
            Column::SSin => 3,
        }
    }
}

// The bytes of a sheet that ends where its counts say, so that every number in it can be read.
#[derive(Clone, Copy)]
pub struct Sheet<'a> {
    pub bytes: &'a [u8],
    pub layout: Layout,
    pub ghost laid: { Laid bytes.now layout },
    pub ghost lines_of_16_bits: { layout.lines < 2 ^ 16 },
    pub ghost length: { length bytes.now ≡ sheet_end bytes.now },
}

impl<'a> Sheet<'a> {
    // The six multipliers of line f.
    pub fn multipliers_at(&self, f: usize) -> Multipliers
        requires { f < line_count self.now.bytes.now }
        ensures { result ≡ multipliers self.now.bytes.now f }
    {
        let at = 2 + 6 * f;
        Multipliers {
            tau: words::signed_byte_at(self.bytes, at),
            s: words::signed_byte_at(self.bytes, at + 1),
            h: words::signed_byte_at(self.bytes, at + 2),
            p: words::signed_byte_at(self.bytes, at + 3),
            np: words::signed_byte_at(self.bytes, at + 4),
            ps: words::signed_byte_at(self.bytes, at + 5),
        }
    }

    // Where row k begins.
    pub fn row_start(&self, k: usize) -> usize
        requires { k < tide_count self.now.bytes.now }
        ensures { result ≡ row_start self.now.bytes.now k }
    {
        self.layout.rows + 4 * (self.layout.lines * k)
    }

    pub fn admittance_at(&self, k: usize, f: usize) -> i64
        requires { (k < tide_count self.now.bytes.now) × (f < line_count self.now.bytes.now) }
        ensures { (result ≡ admittance self.now.bytes.now k f) × (nat_abs result ≤ 2 ^ 31) }
    {
        words::signed_at(self.bytes, self.row_start(k) + 4 * f)
    }

    // Where place j begins.
    pub fn place_start(&self, j: usize) -> usize
        requires { j < place_count self.now.bytes.now }
        ensures { result ≡ place_start self.now.bytes.now j }
    {
        self.layout.first + (2 + 16 * self.layout.tides) * j
    }

    #[tactic(auto, unfolding(crate::specs::Sheet::degree))]
    pub fn degree_at(&self, j: usize) -> usize
        requires { j < place_count self.now.bytes.now }
        ensures { result ≡ degree self.now.bytes.now j }
    {
        usize::from(self.bytes[self.place_start(j)])
    }

    #[tactic(auto, unfolding(crate::specs::Sheet::order))]
    pub fn order_at(&self, j: usize) -> usize
        requires { j < place_count self.now.bytes.now }
        ensures { result ≡ order self.now.bytes.now j }
    {
        usize::from(self.bytes[self.place_start(j) + 1])
    }

    // Of place j and tide k.
    pub fn coefficient_at(&self, j: usize, k: usize, q: Column) -> i64
        requires { (j < place_count self.now.bytes.now) × (k < tide_count self.now.bytes.now) }
        ensures { (result ≡ coefficient self.now.bytes.now j k (column q)) × (nat_abs result ≤ 2 ^ 31) }
    {
        words::signed_at(
            self.bytes,
            self.place_start(j) + 2 + 16 * k + 4 * q.number(),
        )
    }
}

// A sheet that passed its own tests.
#[derive(Clone, Copy)]
pub struct Accepted<'a> {
    pub sheet: Sheet<'a>,
    pub ghost own: { own_refusal sheet.bytes.now ≡ 0 },
}
