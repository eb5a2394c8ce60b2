// The two selections of printed lines that are supplied (document 02, T-04).

#![tactic(auto)]

ghost use Rattle.std.specs.Prelude.{◌≡◌};
ghost use Rattle.profiles.specs.Profiles.{all_lines, major_lines};

const ALL_LINES: u64 = 0x1ffffffffffff;

const MAJOR_LINES: u64 = 0x10984342ff498;

// All 49 lines.
pub fn all_lines() -> u64
    ensures { result ≡ all_lines }
{
    ALL_LINES
}

// The lines that have an anelastic amplitude, ip or op, of at least ten tenths.
pub fn major_lines() -> u64
    ensures { result ≡ major_lines }
{
    MAJOR_LINES
}
