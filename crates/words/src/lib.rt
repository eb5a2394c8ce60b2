// Numbers of one, two and four bytes, little-endian, unsigned or in two's complement, read from any bytes.

#![tactic(auto)]

ghost use Rattle.std.specs.Prelude.{◌≡◌, ◌+◌, ◌^◌, ◌≤◌, ◌<◌, nat_abs, length};
ghost use Rattle.words.specs.Words.{byte_at, half_at, word_at, twos_complement};

// The byte at a place, or 0 past the end.
fn byte_at(bytes: &[u8], at: usize) -> usize
    ensures { (result ≡ byte_at bytes.now at) × (result < 256) }
{
    if at < bytes.len() {
        usize::from(bytes[at])
    } else {
        0
    }
}

// Two bytes, each 0 past the end.
pub fn half_at(bytes: &[u8], at: usize) -> usize
    requires { at < 2 ^ 40 }
    ensures { (result ≡ half_at bytes.now at) × (result < 65536) }
{
    byte_at(bytes, at) + 256 * byte_at(bytes, at + 1)
}

pub fn word_at(bytes: &[u8], at: usize) -> u32
    requires { at + 4 ≤ length bytes.now }
    ensures { result ≡ word_at bytes.now at }
{
    u32::from_le_bytes([bytes[at], bytes[at + 1], bytes[at + 2], bytes[at + 3]])
}

pub fn signed_at(bytes: &[u8], at: usize) -> i64
    requires { at + 4 ≤ length bytes.now }
    ensures { (result ≡ twos_complement (2 ^ 31) (word_at bytes.now at)) × (nat_abs result ≤ 2 ^ 31) }
{
    i64::from(word_at(bytes, at).cast_signed())
}

// The absolute value of the signed word.
pub fn size_at(bytes: &[u8], at: usize) -> u32
    requires { at + 4 ≤ length bytes.now }
    ensures { (result ≡ nat_abs (twos_complement (2 ^ 31) (word_at bytes.now at))) × (result ≤ 2 ^ 31) }
{
    word_at(bytes, at).cast_signed().unsigned_abs()
}

// A signed byte, extended like a signed word.
pub fn signed_byte_at(bytes: &[u8], at: usize) -> i32
    requires { at < length bytes.now }
    ensures { result ≡ twos_complement (2 ^ 7) (byte_at bytes.now at) }
{
    i32::from(bytes[at].cast_signed())
}
