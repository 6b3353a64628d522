// Numbers of nine digits with a biased exponent, multiplied, divided and added in a direction: what everything is worked
// out on. Each operation is a method by value and asks that its operands are in range: a Decimal's methods, which stand on
// these, test their operands; a formula's operands are in range by proof.
#![tactic(auto)]

ghost use Rattle.std.specs.Prelude.{◌≡◌, ◌+◌, ◌-◌, ◌*◌, ◌^◌, ◌≤◌, ◌<◌, leb, cond};
ghost use Rattle.rounding.specs.Sizes.{nine_digits, ten_digits, bias};
ghost use Rattle.rounding.specs.declared.Direction.{Direction};
ghost use Rattle.rounding.specs.Direction.{opposite as opposite_of};
ghost use Rattle.rounding.specs.Round.{extra_of, divide_of, cut_of};
ghost use Rattle.rounding.specs.Number.{Working, InRange, Result, SumResult, rank_of, at_most_of};
ghost use Rattle.rounding.specs.Operations.{product_of, quotient_of, aligned_of, sum_of};
ghost use Rattle.rounding.specs.WorkingForm.{raise_by, nine_of, NineResult};

// The least number of nine digits, 10^8, and the least of ten, 10^9: also what a product is divided by and a dividend is
// multiplied by.
pub const NINE_DIGITS: u64 = 10 * 10 * 10 * 10 * 10 * 10 * 10 * 10;

pub const TEN_DIGITS: u64 = 10 * NINE_DIGITS;

// The exponent e is kept as e + 3000.
pub const BIAS: u64 = 3000;

// The exponent of nine digits before the point, and of ten.
const NINE_PLACES: u64 = BIAS - 8;

const TEN_PLACES: u64 = BIAS - 9;

// Which way a result is rounded.
#[derive(Clone, Copy)]
pub enum Direction {
    Down,
    Up,
}

impl Direction {
    // The other direction.
    pub fn opposite(self) -> Direction
        ensures { result ≡ opposite_of self }
    {
        match self {
            Direction::Down => Direction::Up,
            Direction::Up => Direction::Down,
        }
    }
}

// The number m * 10^(x - 3000). Zero is m = 0, with any x.
#[derive(Clone, Copy)]
pub struct Number {
    pub m: u64,
    pub x: u64,
}

// a if the test holds, else b.
fn pick<T: Copy>(test: bool, a: T, b: T) -> T
    ensures { result ≡ cond test a b }
{
    if test {
        return a;
    }
    b
}

// 10^k: the only place where a power of ten is made for an exponent that is not known beforehand. Each factor is the square
// of the one before, so that no array of powers is kept; each binary digit of k chooses a factor, so that no loop is needed.
fn power(k: u64) -> u64
    requires { k ≤ 9 }
    ensures { result ≡ 10 ^ k }
{
    let second = 10 * 10;
    let fourth = second * second;
    let eighth = fourth * fourth;
    let a = pick(k % 2 == 1, 10, 1);
    let b = pick(k / 2 % 2 == 1, second, 1);
    let c = pick(k / 4 % 2 == 1, fourth, 1);
    let d = pick(k / 8 == 1, eighth, 1);
    a * b * (c * d)
}

// What is added to a dividend so that the quotient is rounded in the direction.
fn extra(d: u64, dir: Direction) -> u64
    requires { 0 < d }
    ensures { result ≡ extra_of dir d }
{
    match dir {
        Direction::Down => 0,
        Direction::Up => d - 1,
    }
}

// The whole quotient n / d, rounded.
fn divide(n: u64, d: u64, dir: Direction) -> u64
    requires { (0 < d) × (n + d ≤ 18446744073709551615) }
    ensures { result ≡ divide_of dir n d }
{
    (n + extra(d, dir)) / d
}

// q * 10^(x - 3000) cut to nine digits, where q has at most ten. Both quotients are worked out
// and one is picked, so that no branch depends on the digits.
fn cut(q: u64, x: u64, dir: Direction) -> Number
    requires { (q ≤ 9999999990) × (x ≤ 10000) }
    ensures { (result ≡ cut_of dir q x) × Result x result }
{
    let tenth = divide(q, 10, dir);
    let short = q < TEN_DIGITS;
    Number {
        m: pick(short, q, tenth),
        x: pick(short, x, x + 1),
    }
}

// p + q, where q does not come after p in the order of exponents. A gap of nine places or more
// leaves of q only that something is there, so it counts as nine.
fn aligned(p: Number, q: Number, dir: Direction) -> Number
    requires { InRange p × (InRange q × (rank_of q ≤ rank_of p)) }
    ensures { (result ≡ aligned_of dir p q) × Result p.x result }
{
    let gap = p.rank() - q.rank();
    let places = pick(gap < 9, gap, 9);
    let part = divide(q.m, power(places), dir);
    cut(p.m + part, p.x, dir)
}

impl Number {
    // Zero, with the exponent of a number of nine digits before the point.
    pub const ZERO: Number = Number {
        m: 0,
        x: NINE_PLACES,
    };

    // The exponent as it counts in an order: zero comes before every other number.
    fn rank(self) -> u64
        ensures { result ≡ rank_of self }
    {
        pick(self.m == 0, 0, self.x)
    }

    // The product, rounded.
    pub fn mul(self, other: Number, dir: Direction) -> Number
        requires { InRange self × InRange other }
        ensures { (result ≡ product_of dir self other) × Result (self.x + other.x - (bias - 8)) result }
    {
        let n = self.m * other.m;
        let x = self.x + other.x - NINE_PLACES;
        cut(divide(n, NINE_DIGITS, dir), x, dir)
    }

    // The product with a power of ten in nine digits: exact, whatever the direction, so nothing is divided.
    pub fn times_power(self, power: Number) -> Number
        requires { InRange self × (InRange power × (power.m ≡ nine_digits)) }
        ensures { ((dir : Direction) → result ≡ product_of dir self power) × Result (self.x + power.x - (bias - 8)) result }
    {
        Number {
            m: self.m,
            x: self.x + power.x - NINE_PLACES,
        }
    }

    // The quotient, rounded; zero where the divisor is zero.
    pub fn div(self, other: Number, dir: Direction) -> Number
        requires { InRange self × InRange other }
        ensures { (result ≡ quotient_of dir self other) × Result (self.x + (bias - 9) - other.x) result }
    {
        let some = NINE_DIGITS <= other.m;
        let n = pick(some, self.m * TEN_DIGITS, 0);
        let d = pick(some, other.m, 1);
        let x = self.x + TEN_PLACES - other.x;
        cut(divide(n, d, dir), x, dir)
    }

    // The sum, rounded. A zero adds nothing: of the terms that are added up here many are absent.
    pub fn add(self, other: Number, dir: Direction) -> Number
        requires { InRange self × InRange other }
        ensures { (result ≡ sum_of dir self other) × SumResult self other result }
    {
        if other.m == 0 {
            return self;
        }
        let first = other.rank() <= self.rank();
        let great = pick(first, self, other);
        let small = pick(first, other, self);
        aligned(great, small, dir)
    }

    // The number times 10^k, k from 1 to 4, where that leaves at most nine digits.
    fn raised(self, k: u64) -> Number
        requires { (self.m < ten_digits) × ((k ≤ 4) × (k ≤ self.x)) }
        ensures { result ≡ raise_by k self }
    {
        let m = self.m * power(k);
        let x = self.x - k;
        pick(m < TEN_DIGITS, Number { m, x }, self)
    }

    // The same value with nine digits, of a number of one to nine.
    pub fn working(self) -> Number
        requires { (self.m < ten_digits) × (11 ≤ self.x) }
        ensures { (result ≡ nine_of self) × NineResult self result }
    {
        self.raised(4).raised(4).raised(2).raised(1)
    }

    // Whether this number is worth at most the other.
    pub fn at_most(self, other: Number) -> bool
        requires { (Working self × (0 < self.x)) × (Working other × (0 < other.x)) }
        ensures { result ≡ at_most_of self other }
    {
        (self.rank(), self.m) <= (other.rank(), other.m)
    }
}
