// Stores into a lent output. Each returns the offset behind what it writes, and writes only what fits whole.
#![tactic(auto)]

ghost use Rattle.std.specs.Prelude.{◌∷◌, [], ◌≡◌, ◌+◌, ◌^◌, ◌<◌, ◌≤◌, nat_abs, length};
ghost use Rattle.integer.specs.BigEndian.{bytes, signed_bytes};
ghost use Rattle.model.specs.Listing.{decimal};
ghost use Rattle.output.specs.Writing.{Written};

// Bytes: the store that those of a byte, of two bytes and of a word share.
fn store(out: &mut [u8], at: usize, word: &[u8]) -> usize
    requires { at + length word.now < 2 ^ 64 }
    ensures { Written out.old at word.now out.new result }
{
    let next = at + word.len();
    if out.len() < next {
        return next;
    }
    for (i, byte) in word.iter().enumerate() {
        out[at + i] = *byte;
    }
    next
}

// One byte.
pub fn put_byte(out: &mut [u8], at: usize, b: u8) -> usize
    requires { at < 2 ^ 63 }
    ensures { Written out.old at (b ∷ []) out.new result }
{
    store(out, at, &[b])
}

// Two bytes.
pub fn put_pair(out: &mut [u8], at: usize, a: u8, b: u8) -> usize
    requires { at < 2 ^ 62 }
    ensures { Written out.old at (a ∷ b ∷ []) out.new result }
{
    store(out, at, &[a, b])
}

// A signed number as four bytes.
pub fn put_i32(out: &mut [u8], at: usize, v: i64) -> usize
    requires { (at < 2 ^ 63) × (nat_abs v ≤ 2 ^ 31) }
    ensures { Written out.old at (signed_bytes 4 v) out.new result }
{
    let next = at + 4;
    if out.len() < next {
        return next;
    }
    integer::put_i32(out, at, v);
    next
}

// The last four bytes of a number.
pub fn put_u32(out: &mut [u8], at: usize, n: u64) -> usize
    requires { at < 2 ^ 63 }
    ensures { Written out.old at (bytes 4 n) out.new result }
{
    let next = at + 4;
    if out.len() < next {
        return next;
    }
    integer::put_unsigned(out, at, n, 4);
    next
}

// A word.
pub fn put_bytes(out: &mut [u8], at: usize, word: &[u8]) -> usize
    requires { at + length word.now < 2 ^ 63 }
    ensures { Written out.old at word.now out.new result }
{
    store(out, at, word)
}

// How many decimal digits `n` has.
pub fn decimal_len(n: u64) -> usize
    ensures { result ≡ length (decimal n) }
{
    let mut rest = n;
    let mut width: usize = 1;
    while rest >= 10 {
        rest /= 10;
        width += 1;
    }
    width
}

// A number in decimal digits, the last one first.
pub fn put_decimal(out: &mut [u8], at: usize, n: u64) -> usize
    requires { at + length (decimal n) < 2 ^ 63 }
    ensures { Written out.old at (decimal n) out.new result }
{
    let width = decimal_len(n);
    let next = at + width;
    if out.len() < next {
        return next;
    }
    let mut rest = n;
    let mut nth = 1;
    while rest >= 10 {
        out[at + (width - nth)] = (48 + rest % 10) as u8;
        rest /= 10;
        nth += 1;
    }
    out[at + (width - nth)] = (48 + rest) as u8;
    next
}
