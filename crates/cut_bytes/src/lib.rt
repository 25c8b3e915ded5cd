// Numbers in the bytes of a cut file, the least significant byte first (Specification 16.1).
// Form: one function for each kind of number in a file, two bytes, four, or four with a sign. Each is one line, and what
// they share is `bytes_at` and `put`.
#![tactic(auto)]

ghost use Rattle.std.specs.Prelude.{◌≡◌, ◌+◌, ◌<◌, ℕ, get_or};
ghost use Rattle.cut_bytes.specs.Bytes.{bytes_of, number_at, stored, unsigned, signed};

// The N bytes from index `at`. Bytes past the end count as 0.
fn bytes_at<const N: usize>(bytes: &[u8], at: usize) -> [u8; N]
    ensures { (i : ℕ) → i < N → get_or result i 0 ≡ get_or bytes.now (at + i) 0 }
{
    let from = at.min(bytes.len());
    let rest = &bytes[from..];
    let there = rest.len().min(N);
    let mut found = [0; N];
    found[..there].copy_from_slice(&rest[..there]);
    found
}

// The number in two bytes from index `at`. Bytes past the end count as 0.
pub fn u16_at(bytes: &[u8], at: usize) -> u32
    ensures { result ≡ number_at bytes.now at 2 }
{
    u32::from(u16::from_le_bytes(bytes_at(bytes, at)))
}

// The number in four bytes.
pub fn u32_at(bytes: &[u8], at: usize) -> u32
    ensures { result ≡ number_at bytes.now at 4 }
{
    u32::from_le_bytes(bytes_at(bytes, at))
}

// The signed number in four bytes, in two's complement.
pub fn i32_at(bytes: &[u8], at: usize) -> i32
    ensures { result ≡ signed (number_at bytes.now at 4) }
{
    u32_at(bytes, at).cast_signed()
}

// Stores `part` from index `at` on, if all of it is inside the slice.
fn put(bytes: &mut [u8], at: usize, part: &[u8])
    ensures { bytes.new ≡ stored bytes.old at part.now }
{
    if part.len() <= bytes.len() && at <= bytes.len() - part.len() {
        bytes[at..at + part.len()].copy_from_slice(part);
    }
}

// Stores two bytes of x at index `at`, if they are inside the slice.
pub fn put_u16(bytes: &mut [u8], at: usize, x: u32)
    ensures { bytes.new ≡ stored bytes.old at (bytes_of 2 x) }
{
    put(bytes, at, &x.to_le_bytes()[..2]);
}

// Stores four bytes of x at index `at`, if they are inside the slice.
pub fn put_u32(bytes: &mut [u8], at: usize, x: u32)
    ensures { bytes.new ≡ stored bytes.old at (bytes_of 4 x) }
{
    put(bytes, at, &x.to_le_bytes());
}

// The 32 bits of a signed number, in two's complement.
pub fn bits_of(x: i32) -> u32
    ensures { result ≡ unsigned x }
{
    x.cast_unsigned()
}
