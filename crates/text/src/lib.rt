// Numbers and decimals as text, put into lent bytes.
#![tactic(auto)]

ghost use Rattle.std.specs.Prelude.{◌≡◌, [], ◌∷◌, ◌+◌, ◌/◌, ◌%◌, ◌≤◌, length};
ghost use Rattle.text.specs.Text.{put, HasRoom};
ghost use Rattle.text.specs.Numbers.{digit, last_digits, number_text};
ghost use Rattle.text.specs.Decimals.{digits_text, exponent_text, or_else};

use decimal::Decimal;

// Lent bytes, and how many of them are taken, from the start on: what is put goes behind those.
#[derive(Drop)]
pub struct Text<'a> {
    pub out: &'a mut [u8],
    pub at: usize,
}

// The byte of the last digit of n.
fn last_digit(n: u32) -> u8
    ensures { result ≡ digit (n % 10) }
{
    b'0' + (n % 10) as u8
}

#[tactic(auto, using(crate::proofs::Puts::puts, crate::proofs::Decimals::decimals))]
impl Text<'_> {
    // One byte.
    pub fn put_byte(&mut self, b: u8)
        requires { HasRoom self.old 1 }
        ensures { self.new ≡ put self.old (b ∷ []) }
    {
        self.out[self.at] = b;
        self.at += 1;
    }

    // A word as it stands.
    pub fn put_word(&mut self, word: &[u8])
        requires { HasRoom self.old (length word.now) }
        ensures { self.new ≡ put self.old word.now }
    {
        let end = self.at + word.len();
        self.out[self.at..end].copy_from_slice(word);
        self.at = end;
    }

    // A whole number: at most ten digits. The last digit goes behind those of n / 10.
    pub fn put_number(&mut self, n: u32)
        requires { HasRoom self.old 10 }
        ensures { self.new ≡ put self.old (number_text n) }
    {
        if n < 10 {
            self.put_byte(b'0' + n as u8);
            return;
        }
        self.put_number(n / 10);
        self.put_byte(last_digit(n));
    }

    // The last four digits of n, with leading zeros, at their places.
    fn put_four(&mut self, n: u32)
        requires { HasRoom self.old 4 }
        ensures { self.new ≡ put self.old (last_digits 4 n) }
    {
        let at = self.at;
        self.out[at] = last_digit(n / 1000);
        self.out[at + 1] = last_digit(n / 100);
        self.out[at + 2] = last_digit(n / 10);
        self.out[at + 3] = last_digit(n);
        self.at = at + 4;
    }

    // The last nine digits of m, a point after the first.
    fn put_digits(&mut self, m: u32)
        requires { HasRoom self.old 10 }
        ensures { self.new ≡ put self.old (digits_text m) }
    {
        self.put_byte(last_digit(m / 100000000));
        self.put_byte(b'.');
        self.put_four(m / 10000);
        self.put_four(m);
    }

    // E, a sign and the size of e + 8, where x is e counted from -3000.
    fn put_exponent(&mut self, x: u32)
        requires { HasRoom self.old 12 }
        ensures { self.new ≡ put self.old (exponent_text x) }
    {
        self.put_byte(b'E');
        if x < 2992 {
            self.put_byte(b'-');
            self.put_number(2992 - x);
        } else {
            self.put_byte(b'+');
            self.put_number(x - 2992);
        }
    }

    // A decimal, or one mark where m is zero: at most 16 bytes. An e outside -999 to 999 is put as E-2992.
    // The room asked for is that of its parts, ten bytes for the number after E among them.
    pub fn put_decimal(&mut self, d: Decimal, mark: u8)
        requires { HasRoom self.old 22 }
        ensures { self.new ≡ put self.old (or_else mark d) }
    {
        if d.m == 0 {
            self.put_byte(mark);
            return;
        }
        self.put_digits(d.m);
        self.put_exponent(decimal::biased_exponent(d.e) as u32);
    }
}
