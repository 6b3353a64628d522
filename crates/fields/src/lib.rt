// Decimal fields of eight bytes in byte slices: m (4 bytes), e (2, two's complement), two zero bytes.
#![tactic(auto)]

ghost use Rattle.std.specs.Prelude.{◌≡◌, ◌+◌, ◌*◌, ◌≤◌, length};
ghost use Rattle.words.specs.Bytes.{placed};
ghost use Rattle.fields.specs.Fields.{half_at, signed_of, code_of, decimal_at, decimals_at, unused_zero, field, field_bytes};

use decimal::Decimal;

// The signed number that 16 bits stand for.
fn exponent(h: u16) -> i32
    ensures { result ≡ signed_of h }
{
    i32::from(h.cast_signed())
}

// The 16 bits of a signed number.
fn code(e: i32) -> u32
    ensures { result ≡ code_of e }
{
    e.cast_unsigned() % 65536
}

// The number in the two bytes at `at`, lowest first.
fn half(s: &[u8], at: usize) -> u16
    requires { at + 2 ≤ length s.now }
    ensures { result ≡ half_at s.now at }
{
    u16::from_le_bytes([s[at], s[at + 1]])
}

// The decimal in the field at `at`, whether or not it keeps its rule.
pub fn read(s: &[u8], at: usize) -> Decimal
    requires { at + 8 ≤ length s.now }
    ensures { result ≡ decimal_at s.now at }
{
    Decimal {
        m: words::word(s, at),
        e: exponent(half(s, at + 4)),
    }
}

// The decimals in the N fields from `at` on.
pub fn read_all<const N: usize>(s: &[u8], at: usize) -> [Decimal; N]
    requires { at + 8 * N ≤ length s.now }
    ensures { result ≡ decimals_at s.now at N }
{
    let mut ds = [Decimal::ZERO; N];
    for i in 0..N {
        ds[i] = read(s, at + 8 * i);
    }
    ds
}

// Whether the last two bytes of each of n fields from `at` on are zero. No branch depends on them.
pub fn unused_zero(s: &[u8], at: usize, n: usize) -> bool
    requires { at + 8 * n ≤ length s.now }
    ensures { result ≡ unused_zero s.now at n }
{
    let mut ok = true;
    for i in 0..n {
        ok &= half(s, at + 8 * i + 6) == 0;
    }
    ok
}

// Writes the field of d at `at`.
pub fn put(out: &mut [u8], at: usize, d: Decimal)
    requires { at + 8 ≤ length out.old }
    ensures { out.new ≡ placed out.old at (field d) }
{
    words::put(out, at, d.m);
    words::put(out, at + 4, code(d.e));
}

// Writes the fields of N decimals, from `at` on.
pub fn put_all<const N: usize>(out: &mut [u8], at: usize, ds: [Decimal; N])
    requires { at + 8 * N ≤ length out.old }
    ensures { out.new ≡ placed out.old at (field_bytes ds.entry) }
{
    for i in 0..N {
        put(out, at + 8 * i, ds[i]);
    }
}
