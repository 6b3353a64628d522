// Words of four bytes, lowest byte first, in byte slices.
#![tactic(auto)]

ghost use Rattle.std.specs.Prelude.{◌≡◌, ◌+◌, ◌*◌, ◌%◌, ◌≤◌, length, replicate};
ghost use Rattle.words.specs.Words.{word_at, word_sum, zeros};
ghost use Rattle.words.specs.Bytes.{le4, placed};

// The word at `at`.
#[tactic(auto, unfolding(crate::specs::Words::word_at))]
pub fn word(s: &[u8], at: usize) -> u32
    requires { at + 4 ≤ length s.now }
    ensures { result ≡ word_at s.now at }
{
    u32::from_le_bytes([s[at], s[at + 1], s[at + 2], s[at + 3]])
}

// The first n words, added modulo 4,294,967,296.
#[tactic(auto, using(crate::proofs::Words::word_sum_next), unfolding(crate::specs::Words::word_sum))]
pub fn sum(s: &[u8], n: usize) -> u32
    requires { 4 * n ≤ length s.now }
    ensures { result ≡ word_sum s.now n % 4294967296 }
{
    let mut t: u32 = 0;
    for i in 0..n {
        t = t.wrapping_add(word(s, 4 * i));
    }
    t
}

// Whether the n bytes from `at` are all zero. The loop has no way out in the middle, so that it is done many bytes at a time.
#[tactic(auto, using(crate::proofs::Parts::zeros_next), unfolding(crate::specs::Words::zeros))]
pub fn all_zero(s: &[u8], at: usize, n: usize) -> bool
    requires { at + n ≤ length s.now }
    ensures { result ≡ zeros s.now at n }
{
    let mut ok = true;
    for b in &s[at..at + n] {
        ok &= *b == 0;
    }
    ok
}

// Writes the word v at `at`.
#[tactic(auto, using(crate::proofs::Written::set_four), unfolding(crate::specs::Bytes::le4))]
pub fn put(out: &mut [u8], at: usize, v: u32)
    requires { at + 4 ≤ length out.old }
    ensures { out.new ≡ placed out.old at (le4 v) }
{
    [out[at], out[at + 1], out[at + 2], out[at + 3]] = v.to_le_bytes();
}

// Writes n zero bytes from `at` on.
#[tactic(auto, using(crate::proofs::Written::put_mid_placed))]
pub fn clear(out: &mut [u8], at: usize, n: usize)
    requires { at + n ≤ length out.old }
    ensures { out.new ≡ placed out.old at (replicate n 0) }
{
    out[at..at + n].fill(0);
}
