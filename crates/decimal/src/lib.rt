// Decimals (m, e) worth m * 10^e, multiplied, divided and added with the result rounded down or up.
#![tactic(auto)]

ghost use Rattle.std.specs.Prelude.{◌≡◌, ◌≤◌, MatchOption};
ghost use Rattle.std.proofs.Math.IntN.{sub_ℕ};
ghost use Rattle.rounding.specs.Sizes.{bias};
ghost use Rattle.rounding.specs.Number.{InRange};
ghost use Rattle.decimal.specs.Exponent.{raised};
ghost use Rattle.decimal.specs.Decimal.{zero_of, biased_of, decimal_of, Printable, is_operand, operands_of, mul_of, div_of, add_of, working_of, at_most_of};

use rounding::{BIAS, Direction, NINE_DIGITS, Number, TEN_DIGITS};

// m * 10^e. In a file m is at most 999,999,999, e is from -20 to 20, and m = 0 has e = 0.
// A working decimal is (0, 0) or has nine digits.
#[derive(Clone, Copy)]
pub struct Decimal {
    pub m: u32,
    pub e: i32,
}

// e + 3000 for e from -999 to 999, else 0.
pub fn biased_exponent(e: i32) -> u64
    ensures { result ≡ raised e }
{
    match e {
        -999..=999 => (e + 3000) as u64,
        _ => 0,
    }
}

// x - 3000.
fn signed_exponent(x: u64) -> i32
    requires { x ≤ 10000 }
    ensures { result ≡ sub_ℕ x bias }
{
    x as i32 - 3000
}

// The decimal with a biased exponent.
impl From<Decimal> for Number {
    ghost from_gives = { λ d r. r ≡ biased_of d };

    fn from(d: Decimal) -> Number {
        Number {
            m: u64::from(d.m),
            x: biased_exponent(d.e),
        }
    }
}

// The decimal of a number with a biased exponent.
pub fn unbiased(r: Number) -> Decimal
    requires { Printable r }
    ensures { result ≡ decimal_of r }
{
    if r.m == 0 {
        return Decimal::ZERO;
    }
    Decimal {
        m: r.m as u32,
        e: signed_exponent(r.x),
    }
}

// Whether the number is zero at exponent 0, or has nine digits and an exponent from -999 to 999.
fn operand(r: Number) -> bool
    ensures { result ≡ is_operand r }
{
    if r.m == 0 {
        r.x == BIAS
    } else {
        (NINE_DIGITS..TEN_DIGITS).contains(&r.m) && r.x != 0
    }
}

// Two decimals with biased exponents, if both are operands.
fn operands(a: Decimal, b: Decimal) -> Option<(Number, Number)>
    ensures { result ≡ operands_of a b }
{
    let p = Number::from(a);
    let q = Number::from(b);
    (operand(p) && operand(q)).then_some((p, q))
}

// The result of an operation on two operands, or (0, 0) where one of them is none.
fn operate<F: FnOnce(Number, Number) -> Number>(a: Decimal, b: Decimal, operation: F) -> Decimal
    requires callable { (p q : _) → InRange p × InRange q → F.pre operation p q }
    requires printable { (p q r : _) → InRange p × InRange q → F.post operation p q r → Printable r }
    ensures { MatchOption (operands_of a b)
        (result ≡ zero_of)
        (λ t. (r : _) × (F.post operation t.0 t.1 r × (result ≡ decimal_of r))) }
{
    let Some((p, q)) = operands(a, b) else {
        return Decimal::ZERO;
    };
    unbiased(operation(p, q))
}

impl Decimal {
    // (0, 0).
    pub const ZERO: Decimal = Decimal { m: 0, e: 0 };

    // The product, rounded.
    pub fn mul(self, other: Decimal, dir: Direction) -> Decimal
        ensures { result ≡ mul_of self other dir }
    {
        operate(self, other, |p, q| p.mul(q, dir))
    }

    // The quotient, rounded; (0, 0) where the divisor is zero.
    pub fn div(self, other: Decimal, dir: Direction) -> Decimal
        ensures { result ≡ div_of self other dir }
    {
        operate(self, other, |p, q| p.div(q, dir))
    }

    // The sum, rounded.
    pub fn add(self, other: Decimal, dir: Direction) -> Decimal
        ensures { result ≡ add_of self other dir }
    {
        operate(self, other, |p, q| p.add(q, dir))
    }

    // The same value as a working decimal; (0, 0) for m above 999,999,999 or e outside -999 to 999.
    pub fn working(self) -> Decimal
        ensures { result ≡ working_of self }
    {
        let r = Number::from(self);
        if TEN_DIGITS <= r.m || r.x == 0 {
            return Decimal::ZERO;
        }
        unbiased(r.working())
    }

    // Whether this working decimal is worth at most the other. False where one of them is none,
    // or has e outside -999 to 999.
    pub fn at_most(self, other: Decimal) -> bool
        ensures { result ≡ at_most_of self other }
    {
        operands(self, other).is_some_and(|(p, q)| p.at_most(q))
    }
}
