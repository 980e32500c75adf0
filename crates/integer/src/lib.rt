// Whole-number arithmetic with exact contracts: division that rounds up, big-endian numbers in slices of bytes, and bytes copied from
// one slice to another.
#![tactic(auto)]

ghost use Rattle.std.specs.Prelude.{◌≡◌, ◌+◌, ◌*◌, ◌^◌, ◌<◌, ◌≤◌, length, take, drop, neg_ℤ, nat_abs, ◌-ℤ◌, eqb};
ghost use Rattle.integer.specs.Linear.{larger};
ghost use Rattle.integer.specs.Ceiling.{ceiling};
ghost use Rattle.integer.specs.BigEndian.{unsigned, bytes, half, signed, signed_bytes, twos, residue};
ghost use Rattle.integer.specs.Store.{put};

// The difference.
pub fn sub(a: i64, b: i64) -> i64
    requires { nat_abs a + nat_abs b < 2 ^ 63 }
    ensures { (result ≡ a -ℤ b) × (nat_abs result ≤ nat_abs a + nat_abs b) }
{
    a - b
}

// The negation.
pub fn neg(a: i64) -> i64
    requires { nat_abs a < 2 ^ 63 }
    ensures { (result ≡ neg_ℤ a) × (nat_abs result ≤ nat_abs a) }
{
    0 - a
}

// Is it 0?
pub fn is_zero(z: i64) -> bool
    ensures { result ≡ eqb (nat_abs z) 0 }
{
    z == 0
}

// The larger of the two.
pub fn larger(a: i64, b: i64) -> i64
    ensures { result ≡ larger a b }
{
    if a <= b { b } else { a }
}

// The quotient, rounded up to a whole number.
pub fn ceil_div(a: i64, d: u64) -> i64
    requires { (0 < d) × (nat_abs a + d < 2 ^ 63) }
    ensures { (result ≡ ceiling a d) × (nat_abs result ≤ nat_abs a) }
{
    let e = d as i64;
    if a < 0 {
        a / e
    } else {
        (a + (d - 1) as i64) / e
    }
}

// The unsigned number in the `width` bytes from `at` on.
pub fn unsigned_at(s: &[u8], at: usize, width: usize) -> u64
    requires { (at + width ≤ length s.now) × (width ≤ 8) }
    ensures { (result ≡ unsigned (take width (drop at s.now))) × (result < 256 ^ width) }
{
    let mut n: u64 = 0;
    for i in 0..width {
        n = n * 256 + s[at + i] as u64;
    }
    n
}

// The signed number whose residue modulo twice `half` is `n`.
fn from_residue(n: u64, half: u64) -> i64
    requires { (n < 2 * half) × (half ≤ 2 ^ 61) }
    ensures { (result ≡ twos half n) × (nat_abs result ≤ half) }
{
    if n < half {
        n as i64
    } else {
        n as i64 - (2 * half) as i64
    }
}

// The signed number in the `width` bytes from `at` on, of which `limit` is half the range.
fn signed_at(s: &[u8], at: usize, width: usize, limit: u64) -> i64
    requires { (at + width ≤ length s.now) × (0 < width) × (width ≤ 8) × (limit ≡ half width) × (limit ≤ 2 ^ 61) }
    ensures { (result ≡ signed (take width (drop at s.now))) × (nat_abs result ≤ limit) }
{
    from_residue(unsigned_at(s, at, width), limit)
}

// The signed number in the two bytes from `at` on.
pub fn i16_at(s: &[u8], at: usize) -> i64
    requires { at + 2 ≤ length s.now }
    ensures { (result ≡ signed (take 2 (drop at s.now))) × (nat_abs result ≤ 2 ^ 15) }
{
    signed_at(s, at, 2, 32768)
}

// The signed number in the four bytes from `at` on.
pub fn i32_at(s: &[u8], at: usize) -> i64
    requires { at + 4 ≤ length s.now }
    ensures { (result ≡ signed (take 4 (drop at s.now))) × (nat_abs result ≤ 2 ^ 31) }
{
    signed_at(s, at, 4, 2147483648)
}

// Stores the last `width` bytes of `n` from `at` on.
pub fn put_unsigned(out: &mut [u8], at: usize, n: u64, width: usize)
    requires { at + width ≤ length out.old }
    ensures { out.new ≡ put out.old at (bytes width n) }
{
    let mut rest = n;
    for done in 0..width {
        out[at + (width - 1 - done)] = (rest % 256) as u8;
        rest /= 256;
    }
}

// The residue of `v` modulo `m`.
fn to_residue(v: i64, m: u64) -> u64
    requires { (nat_abs v < m) × (m ≤ 2 ^ 62) }
    ensures { result ≡ residue m v }
{
    if v < 0 {
        (v + m as i64) as u64
    } else {
        v as u64
    }
}

// Stores `v` in two's complement as `width` bytes from `at` on, of which `range` is the number of values.
fn put_signed(out: &mut [u8], at: usize, v: i64, width: usize, range: u64)
    requires { (at + width ≤ length out.old) × (nat_abs v < range) × (range ≡ 256 ^ width) × (range ≤ 2 ^ 62) }
    ensures { out.new ≡ put out.old at (signed_bytes width v) }
{
    put_unsigned(out, at, to_residue(v, range), width);
}

// Stores `v` as two bytes from `at` on.
pub fn put_i16(out: &mut [u8], at: usize, v: i64)
    requires { (at + 2 ≤ length out.old) × (nat_abs v ≤ 2 ^ 15) }
    ensures { out.new ≡ put out.old at (signed_bytes 2 v) }
{
    put_signed(out, at, v, 2, 65536);
}

// Stores `v` as four bytes from `at` on.
pub fn put_i32(out: &mut [u8], at: usize, v: i64)
    requires { (at + 4 ≤ length out.old) × (nat_abs v ≤ 2 ^ 31) }
    ensures { out.new ≡ put out.old at (signed_bytes 4 v) }
{
    put_signed(out, at, v, 4, 4294967296);
}

// Stores `n` as eight bytes from `at` on.
pub fn put_u64(out: &mut [u8], at: usize, n: u64)
    requires { at + 8 ≤ length out.old }
    ensures { out.new ≡ put out.old at (bytes 8 n) }
{
    put_unsigned(out, at, n, 8);
}

// As many of `from` as fit stand at the start of `out`; what is behind them is kept.
pub fn copy(from: &[u8], out: &mut [u8])
    ensures { out.new ≡ put out.old 0 (take (length out.old) from.now) }
{
    let n = out.len().min(from.len());
    for i in 0..n {
        out[i] = from[i];
    }
}
