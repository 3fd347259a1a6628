// Numbers as the two files store them, and signed numbers taken apart into naturals. A number is joined
// from the lent bytes where they lie: `from_le_bytes` takes an array of them, and no record is copied.
#![tactic(auto)]

ghost use Rattle.std.specs.Prelude.{◌≡◌, true, ◌+◌, ◌*◌, ◌^◌, ◌≤◌, ◌<◌, pos, length};
ghost use Rattle.std.specs.Int.Signed.{le_z};
ghost use Rattle.numbers.specs.Bytes.{u16_at, u32_at, i32_at, signed32};
ghost use Rattle.numbers.specs.Signed.{draw, gain};

// The 16-bit number at byte i, least byte first.
pub fn u16_at(s: &[u8], i: usize) -> u16
    requires { i + 2 ≤ length s.now }
    ensures { result ≡ u16_at s.now i }
{
    join16(s[i], s[i + 1])
}

// The signed 32-bit number at byte i, two's complement.
pub fn i32_at(s: &[u8], i: usize) -> i32
    requires { i + 4 ≤ length s.now }
    ensures { result ≡ i32_at s.now i }
{
    signed_32(u32_at(s, i))
}

// The larger of 0 and x.
pub fn drawn(x: i32) -> u32
    ensures { result ≡ draw x }
{
    x.max(0) as u32
}

// The larger of 0 and -x.
pub fn gained(x: i32) -> u32
    ensures { result ≡ gain x }
{
    x.min(0).unsigned_abs()
}

// A number that is not below 0 and fits 32 bits.
pub fn whole(x: i64) -> u32
    requires { (le_z (pos 0) x ≡ true) × (draw x < 2 ^ 32) }
    ensures { result ≡ draw x }
{
    x as u32
}

fn u32_at(s: &[u8], i: usize) -> u32
    requires { i + 4 ≤ length s.now }
    ensures { result ≡ u32_at s.now i }
{
    join32(s[i], s[i + 1], s[i + 2], s[i + 3])
}

fn join16(a: u8, b: u8) -> u16
    ensures { result ≡ a + 256 * b }
{
    a as u16 + 256 * (b as u16)
}

fn join32(a: u8, b: u8, c: u8, d: u8) -> u32
    ensures { result ≡ a + 256 * b + 65536 * c + 16777216 * d }
{
    a as u32 + 256 * (b as u32) + 65536 * (c as u32) + 16777216 * (d as u32)
}

// What 32 bits mean in two's complement.
fn signed_32(n: u32) -> i32
    ensures { result ≡ signed32 n }
{
    if n < 2147483648 {
        n as i32
    } else {
        -1 - ((4294967295 - n) as i32)
    }
}
