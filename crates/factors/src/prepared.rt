// What the terms of a scenario have in common: the products that name no decimal of a contaminant, worked out once.
ghost use Rattle.std.specs.Prelude.{◌≡◌};
ghost use Rattle.rounding.specs.Operations.{product_of};
ghost use Rattle.inputs.specs.Kinds.{medium_number};
ghost use Rattle.inputs.specs.Inputs.{age_decimals};
ghost use Rattle.factors.specs.Widths.{age_width};
ghost use Rattle.factors.specs.Stands.{Stands, Inputs, ReadyFactors};
ghost use Rattle.factors.specs.Prepared.{Middle, Product3, HoursFor, one_age, AgesFor, PreparedFor};

use crate::numbers::Factors;
use inputs::{Age, Medium};
use rounding::{BIAS, Direction, NINE_DIGITS, Number};

// The constants 1, 10^-6, 0.5 and 365.
pub const ONE: Number = Number {
    m: NINE_DIGITS,
    x: BIAS - 8,
};

pub const MILLIONTH: Number = Number {
    m: NINE_DIGITS,
    x: BIAS - 14,
};

pub const HALF: Number = Number {
    m: 500_000_000,
    x: BIAS - 9,
};

pub const DAYS: Number = Number {
    m: 365_000_000,
    x: BIAS - 6,
};

// Of a scenario's factors in a direction: the divisor BW, AT, 365 of the risk terms of a chemical but for soil on skin, and
// that of soil on skin, AT, 365 (both rounded the other way); the dividends of hazard by ingestion of soil, of water and by
// vapour; 1 / PEF; H, where the medium is water; and G, where it is soil.
#[derive(Clone, Copy)]
pub struct Prepared {
    pub lifetime: Number,
    pub soil_intake: Number,
    pub water_intake: Number,
    pub vapour_intake: Number,
    pub inverse_pef: Number,
    pub hours: Number,
    pub both_ages: Number,
    pub averaging: Number,
}

// a * b * c, from the left.
pub fn product3(a: Number, b: Number, c: Number, dir: Direction) -> Number
    requires { Middle a × (Middle b × Middle c) }
    ensures { (result ≡ product_of dir (product_of dir a b) c) × Product3 a b c result }
{
    a.mul(b, dir).mul(c, dir)
}

// H = ET + (F, N, S, V / L, W), in water. Where the house has no L or no W the second part adds nothing, and nothing is worked out; in
// soil no record needs H.
fn hours(f: &Factors, medium: Medium, dir: Direction) -> Number
    requires { ReadyFactors f.now }
    ensures { HoursFor dir (medium_number medium) f.now result }
{
    if matches!(medium, Medium::Soil) {
        return Number::ZERO;
    }
    let x = f.house;
    let et = f.contact.et;
    if (x.l.m == 0) | (x.w.m == 0) {
        return et;
    }
    let shower = product3(x.f, x.n, x.s, dir).mul(x.v, dir);
    let air = x.l.mul(x.w, dir.opposite());
    et.add(shower.div(air, dir), dir)
}

// SA, EF, ED / BW of an age. Without SA it adds nothing, and nothing is worked out.
fn one_age(x: Age<Number>, dir: Direction) -> Number
    requires { Inputs (age_decimals x) }
    ensures { Stands age_width result (one_age dir x) }
{
    if x.sa.m == 0 {
        return Number::ZERO;
    }
    product3(x.sa, x.ef, x.ed, dir).div(x.bw, dir)
}

// G, the child's and the adult's, in soil; in water no record needs G.
fn both_ages(f: &Factors, medium: Medium, dir: Direction) -> Number
    requires { ReadyFactors f.now }
    ensures { AgesFor dir (medium_number medium) f.now result }
{
    if matches!(medium, Medium::Water) {
        return Number::ZERO;
    }
    let child = one_age(f.ages.child, dir);
    let adult = one_age(f.ages.adult, dir);
    child.add(adult, dir)
}

// What a scenario gives in a medium and a direction.
pub fn prepare(f: &Factors, medium: Medium, dir: Direction) -> Prepared
    requires { ReadyFactors f.now }
    ensures { PreparedFor dir (medium_number medium) f.now result }
{
    let lifetime = product3(f.exposure.bw, f.exposure.at, DAYS, dir.opposite());
    let soil_intake = product3(f.contact.ir, MILLIONTH, f.exposure.ef, dir);
    let water_intake = f.contact.ir.mul(f.exposure.ef, dir);
    let vapour_intake = product3(f.contact.ira, HALF, f.exposure.ef, dir);
    let inverse_pef = ONE.div(f.contact.pef, dir);
    let hours = hours(f, medium, dir);
    let both_ages = both_ages(f, medium, dir);
    let averaging = f.exposure.at.mul(DAYS, dir.opposite());
    Prepared {
        lifetime,
        soil_intake,
        water_intake,
        vapour_intake,
        inverse_pef,
        hours,
        both_ages,
        averaging,
    }
}
