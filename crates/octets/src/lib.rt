//! Leaves over byte slices: numbers, fill, copy, XOR.

#![tactic(auto)]

ghost use Rattle.std.specs.Prelude.{◌≡◌, ◌+◌, ◌≤◌, ◌<◌, length, get_or, replicate, eqb};
ghost use Rattle.octets.specs.Number.{number};
ghost use Rattle.octets.specs.Units.{part};
ghost use Rattle.octets.specs.Xor.{◌⊕◌};

// The byte at offset a.
pub fn byte(s: &[u8], a: usize) -> usize
    requires { a < length s.now }
    ensures { (result ≡ get_or s.now a 0) × (result < 256) }
{
    usize::from(s[a])
}

// The number that the two bytes at offset a hold.
pub fn number_at(s: &[u8], a: usize) -> usize
    requires { a + 2 ≤ length s.now }
    ensures { (result ≡ number (part a 2 s.now)) × (result < 65536) }
{
    byte(s, a) + 256 * byte(s, a + 1)
}

// The number that the four bytes at offset a hold.
pub fn number_of_four(s: &[u8], a: usize) -> usize
    requires { a + 4 ≤ length s.now }
    ensures { (result ≡ number (part a 4 s.now)) × (result < 4294967296) }
{
    number_at(s, a) + 65536 * number_at(s, a + 2)
}

// Whether all bytes are 0.
pub fn zeros(s: &[u8]) -> bool
    ensures { result ≡ eqb (number s.now) 0 }
{
    let mut acc: u8 = 0;
    for b in s {
        acc |= b;
    }
    acc == 0
}

// Every byte becomes b.
pub fn fill(dst: &mut [u8], b: u8)
    ensures { dst.new ≡ replicate (length dst.old) b }
{
    dst.fill(b);
}

// The bytes of src, all of them.
pub fn copy(dst: &mut [u8], src: &[u8])
    requires { length src.now ≡ length dst.old }
    ensures { dst.new ≡ src.now }
{
    // by index: the library's copy comes to memmove, and the archive needs no more of the C library than memcpy and memset
    for i in 0..dst.len() {
        dst[i] = src[i];
    }
}

// The bytes of src are XORed into dst.
pub fn xor_into(dst: &mut [u8], src: &[u8])
    requires { length src.now ≡ length dst.old }
    ensures { dst.new ≡ dst.old ⊕ src.now }
{
    // by index, of both: of what a zip over iter_mut writes, a proof knows nothing
    for i in 0..dst.len() {
        dst[i] ^= src[i];
    }
}
