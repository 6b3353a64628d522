// The terms of the three pathways on each side, for a chemical, a radionuclide and tritium, in soil and in water. A term whose
// pathway is absent is zero: a zero factor makes the product zero, and a zero divisor the quotient. Soil on skin is worked out only
// where ABS and G are not zero. In each function e is the
// exposure and k the contact of the scenario, x the toxicity of the contaminant.
ghost use Rattle.std.specs.Prelude.{◌≡◌};
ghost use Rattle.rounding.specs.Operations.{sum_of};
ghost use Rattle.formulas.specs.Side.{Risk, Hazard};
ghost use Rattle.formulas.specs.Formula.{pathways_of};
ghost use Rattle.terms.specs.Side.{Ready, AirFor, IntakeFor, no_side, TermFor, SideFor, InhaledFor, SkinFor, TermsFor, WideSide, TotalSize};
ghost use Rattle.terms.specs.OneProof.{one_ready};
ghost use Rattle.inputs.specs.Kinds.{medium_number, class_number};
ghost use Rattle.inputs.specs.declared.kind.Medium.TheVariants.{Soil, Water};
ghost use Rattle.inputs.specs.declared.kind.Inhalation.TheVariants.{Intake, Concentration};

use factors::numbers::{ContaminantNumbers, Factors};
use factors::prepared::{DAYS, HALF, MILLIONTH, ONE, Prepared, product3};
use formulas::Sides;
use inputs::{Class, Inhalation, Medium};
use rounding::{BIAS, Direction, NINE_DIGITS, Number};

// The constants that only a term names: 10^-3, 10^3, 24 and 0.000114.
const THOUSANDTH: Number = Number {
    m: NINE_DIGITS,
    x: BIAS - 11,
};

const THOUSAND: Number = Number {
    m: NINE_DIGITS,
    x: BIAS - 5,
};

const HOURS_PER_DAY: Number = Number {
    m: 240_000_000,
    x: BIAS - 7,
};

const YEARS_PER_HOUR: Number = Number {
    m: 114_000_000,
    x: BIAS - 12,
};

// The terms of the three pathways of a side.
#[derive(Clone, Copy)]
pub struct PathwayTerms {
    pub first: Number,
    pub second: Number,
    pub third: Number,
}

// The terms of both sides.
pub type Terms = Sides<PathwayTerms>;

// What the terms are worked out from in a direction: the factors of a scenario and
// their products, the numbers of a contaminant, the medium, and how inhalation is worked out.
#[derive(Clone, Copy)]
struct Given {
    f: Factors,
    p: Prepared,
    t: ContaminantNumbers,
    medium: Medium,
    inhalation: Inhalation,
    dir: Direction,
    ghost ready: { Ready dir (medium_number medium) f p t } by { one_ready dir (medium_number medium) f p t },
}

impl Given {
    // B = 1/VF + 1/PEF.
    fn air(self) -> Number
        ensures { AirFor self.dir self.f self.t Soil result }
    {
        ONE.div(self.t.transfer.vf, self.dir)
            .add(self.p.inverse_pef, self.dir)
    }

    // Soil, chemical, risk: ingestion, inhalation and skin.
    fn soil_chemical_risk(self, inhaled: Number, skin: Number) -> PathwayTerms
        requires { TermFor self.dir self.f self.t (pathways_of self.inhalation 1 1 Risk) 1 inhaled × TermFor self.dir self.f self.t (pathways_of self.inhalation 1 1 Risk) 2 skin }
        ensures { SideFor self.dir self.f self.t (pathways_of self.inhalation 1 1 Risk) result }
    {
        let Given { f, p, t, dir, .. } = self;
        let e = f.exposure;
        let swallowed = t.toxicity.sfo.mul(f.contact.ir, dir).times_power(MILLIONTH);
        PathwayTerms {
            first: product3(swallowed, e.ef, e.ed, dir).div(p.lifetime, dir),
            second: inhaled,
            third: skin,
        }
    }

    // Soil, chemical, hazard: ingestion, inhalation and skin.
    fn soil_chemical_hazard(self, inhaled: Number, skin: Number) -> PathwayTerms
        requires { TermFor self.dir self.f self.t (pathways_of self.inhalation 1 1 Hazard) 1 inhaled × TermFor self.dir self.f self.t (pathways_of self.inhalation 1 1 Hazard) 2 skin }
        ensures { SideFor self.dir self.f self.t (pathways_of self.inhalation 1 1 Hazard) result }
    {
        let Given { f, p, t, dir, .. } = self;
        let oral = product3(t.toxicity.rfdo, f.exposure.bw, DAYS, dir.opposite());
        PathwayTerms {
            first: p.soil_intake.div(oral, dir),
            second: inhaled,
            third: skin,
        }
    }

    // Soil, radionuclide, risk: ingestion, inhalation and external radiation.
    fn soil_radionuclide_risk(self) -> PathwayTerms
        ensures { SideFor self.dir self.f self.t (pathways_of self.inhalation 1 2 Risk) result }
    {
        let Given { f, t, dir, .. } = self;
        let e = f.exposure;
        let k = f.contact;
        let x = t.toxicity;
        let swallowed = x.sfo.mul(k.ir, dir).times_power(MILLIONTH);
        let inhaled = product3(x.sfi.mul(k.ira, dir), e.ef, e.ed, dir);
        let outdoors = product3(x.sfx, k.et, k.rf, dir).mul(YEARS_PER_HOUR, dir);
        PathwayTerms {
            first: product3(swallowed, e.ef, e.ed, dir),
            second: inhaled.div(k.pef, dir),
            third: product3(outdoors, e.ef, e.ed, dir),
        }
    }

    // Water, chemical, risk: ingestion, vapour and skin.
    fn water_chemical_risk(self, inhaled: Number) -> PathwayTerms
        requires { TermFor self.dir self.f self.t (pathways_of self.inhalation 2 1 Risk) 1 inhaled }
        ensures { SideFor self.dir self.f self.t (pathways_of self.inhalation 2 1 Risk) result }
    {
        let Given { f, p, t, dir, .. } = self;
        let e = f.exposure;
        let k = f.contact;
        let x = t.toxicity;
        let pc = t.transfer.pc;
        let swallowed = product3(x.sfo.mul(k.ir, dir), e.ef, e.ed, dir);
        let wet = product3(product3(x.sfo, k.sa, pc, dir), k.et, THOUSANDTH, dir);
        let absorbed = product3(wet, e.ef, e.ed, dir);
        PathwayTerms {
            first: swallowed.div(p.lifetime, dir),
            second: inhaled,
            third: absorbed.div(p.lifetime, dir),
        }
    }

    // Water, chemical, hazard: ingestion, vapour and skin.
    fn water_chemical_hazard(self, inhaled: Number) -> PathwayTerms
        requires { TermFor self.dir self.f self.t (pathways_of self.inhalation 2 1 Hazard) 1 inhaled }
        ensures { SideFor self.dir self.f self.t (pathways_of self.inhalation 2 1 Hazard) result }
    {
        let Given { f, p, t, dir, .. } = self;
        let e = f.exposure;
        let k = f.contact;
        let pc = t.transfer.pc;
        let oral = product3(t.toxicity.rfdo, e.bw, DAYS, dir.opposite());
        let absorbed = product3(product3(k.sa, pc, k.et, dir), THOUSANDTH, e.ef, dir);
        PathwayTerms {
            first: p.water_intake.div(oral, dir),
            second: inhaled,
            third: absorbed.div(oral, dir),
        }
    }

    // Water, radionuclide, risk: ingestion.
    fn water_radionuclide_risk(self) -> PathwayTerms
        ensures { SideFor self.dir self.f self.t (pathways_of self.inhalation 2 2 Risk) result }
    {
        let Given { f, t, dir, .. } = self;
        let e = f.exposure;
        let k = f.contact;
        let x = t.toxicity;
        PathwayTerms {
            first: product3(x.sfo.mul(k.ir, dir), e.ef, e.ed, dir),
            second: Number::ZERO,
            third: Number::ZERO,
        }
    }

    // Water, tritium, risk: ingestion as of a radionuclide, inhalation and skin.
    fn water_tritium_risk(self) -> PathwayTerms
        requires { self.medium ≡ Water }
        ensures { SideFor self.dir self.f self.t (pathways_of self.inhalation 2 3 Risk) result }
    {
        let Given { f, p, t, dir, .. } = self;
        let e = f.exposure;
        let k = f.contact;
        let house = f.house;
        let x = t.toxicity;
        let breathed = product3(
            product3(x.sfi, k.ira, house.m, dir),
            THOUSANDTH,
            p.hours,
            dir,
        );
        let wet = product3(product3(x.sfo, k.sa, house.k, dir), k.et, THOUSAND, dir);
        PathwayTerms {
            first: self.water_radionuclide_risk().first,
            second: product3(breathed, e.ef, e.ed, dir),
            third: product3(wet, e.ef, e.ed, dir),
        }
    }
}

// No pathway.
fn no_side() -> PathwayTerms
    ensures { result ≡ no_side }
{
    PathwayTerms {
        first: Number::ZERO,
        second: Number::ZERO,
        third: Number::ZERO,
    }
}

// What hazard by intake divides: IRA, the factor from soil or water to the air, EF. In water it is prepared.
fn intake(
    f: &Factors,
    p: &Prepared,
    t: &ContaminantNumbers,
    medium: Medium,
    air: Number,
    dir: Direction,
) -> Number
    requires { Ready dir (medium_number medium) f.now p.now t.now × AirFor dir f.now t.now medium air }
    ensures { IntakeFor dir f.now t.now medium result }
{
    match medium {
        Medium::Soil => product3(f.contact.ira, air, f.exposure.ef, dir),
        Medium::Water => p.vapour_intake,
    }
}

// Inhalation of a chemical by intake, of risk and of hazard, with the factor from soil or water to the air: B or 0.5.
#[inline(always)]
fn by_intake(
    f: &Factors,
    p: &Prepared,
    t: &ContaminantNumbers,
    medium: Medium,
    air: Number,
    dir: Direction,
) -> Sides<Number>
    requires { Ready dir (medium_number medium) f.now p.now t.now × AirFor dir f.now t.now medium air }
    ensures { InhaledFor dir f.now t.now Intake medium result }
{
    let e = f.exposure;
    let x = t.toxicity;
    let inhaled = product3(product3(x.sfi, f.contact.ira, air, dir), e.ef, e.ed, dir);
    let intake = intake(f, p, t, medium, air, dir);
    let dose = product3(x.rfdi, e.bw, DAYS, dir.opposite());
    Sides {
        risk: inhaled.div(p.lifetime, dir),
        hazard: intake.div(dose, dir),
    }
}

// The same by concentration. It stands by itself, so that inhalation by intake does not pay for its room.
#[cold]
#[inline(never)]
fn by_concentration(
    f: &Factors,
    p: &Prepared,
    t: &ContaminantNumbers,
    medium: Medium,
    air: Number,
    dir: Direction,
) -> Sides<Number>
    requires { Ready dir (medium_number medium) f.now p.now t.now × AirFor dir f.now t.now medium air }
    ensures { InhaledFor dir f.now t.now Concentration medium result }
{
    let e = f.exposure;
    let a = f.air_hours;
    let back = dir.opposite();
    let inhaled = product3(product3(t.in_air.u, THOUSAND, air, dir), a, e.ef, dir).mul(e.ed, dir);
    let lifetime = p.averaging.mul(HOURS_PER_DAY, back);
    let reference = product3(t.in_air.q, DAYS, HOURS_PER_DAY, back);
    Sides {
        risk: inhaled.div(lifetime, dir),
        hazard: product3(air, a, e.ef, dir).div(reference, dir),
    }
}

// Inhalation of a chemical, by intake or by concentration.
#[inline(always)]
fn inhaled(
    f: &Factors,
    p: &Prepared,
    t: &ContaminantNumbers,
    medium: Medium,
    inhalation: Inhalation,
    air: Number,
    dir: Direction,
) -> Sides<Number>
    requires { Ready dir (medium_number medium) f.now p.now t.now × AirFor dir f.now t.now medium air }
    ensures { InhaledFor dir f.now t.now inhalation medium result }
{
    match inhalation {
        Inhalation::Intake => by_intake(f, p, t, medium, air, dir),
        Inhalation::Concentration => by_concentration(f, p, t, medium, air, dir),
    }
}

// Soil on skin, of risk and of hazard. It stands by itself, so that records without it do not pay for its room.
#[cold]
#[inline(never)]
fn skin_terms(f: &Factors, p: &Prepared, t: &ContaminantNumbers, dir: Direction) -> Sides<Number>
    requires { Ready dir (medium_number Soil) f.now p.now t.now }
    ensures { SkinFor dir f.now t.now result }
{
    let x = t.toxicity;
    let af = f.ages.af;
    let risk = product3(product3(x.sfo, t.abs, af, dir), MILLIONTH, p.both_ages, dir);
    let hazard = product3(t.abs, af, MILLIONTH, dir).mul(p.both_ages, dir);
    let dose = product3(x.rfdo, f.exposure.ed, DAYS, dir.opposite());
    Sides {
        risk: risk.div(p.averaging, dir),
        hazard: hazard.div(dose, dir),
    }
}

// The same; without ABS or without G both are zero, and nothing is worked out.
fn on_skin(f: &Factors, p: &Prepared, t: &ContaminantNumbers, dir: Direction) -> Sides<Number>
    requires { Ready dir (medium_number Soil) f.now p.now t.now }
    ensures { SkinFor dir f.now t.now result }
{
    if (t.abs.m == 0) | (p.both_ages.m == 0) {
        return Sides {
            risk: Number::ZERO,
            hazard: Number::ZERO,
        };
    }
    skin_terms(f, p, t, dir)
}

// The terms of both sides for a class, in a medium that was prepared for.
pub fn terms_of(
    f: &Factors,
    p: &Prepared,
    t: &ContaminantNumbers,
    medium: Medium,
    inhalation: Inhalation,
    class: Class,
    dir: Direction,
) -> Terms
    requires { Ready dir (medium_number medium) f.now p.now t.now }
    ensures { TermsFor dir f.now t.now inhalation (medium_number medium) (class_number class) result }
{
    let given = Given {
        f: *f,
        p: *p,
        t: *t,
        medium,
        inhalation,
        dir,
    };
    match (class, medium) {
        (Class::Chemical, Medium::Soil) => {
            let b = given.air();
            let skin = on_skin(f, p, t, dir);
            let breathed = inhaled(f, p, t, Medium::Soil, inhalation, b, dir);
            Terms {
                risk: given.soil_chemical_risk(breathed.risk, skin.risk),
                hazard: given.soil_chemical_hazard(breathed.hazard, skin.hazard),
            }
        }
        (Class::Radionuclide, Medium::Soil) => Terms {
            risk: given.soil_radionuclide_risk(),
            hazard: no_side(),
        },
        (Class::Chemical, Medium::Water) => {
            let breathed = inhaled(f, p, t, Medium::Water, inhalation, HALF, dir);
            Terms {
                risk: given.water_chemical_risk(breathed.risk),
                hazard: given.water_chemical_hazard(breathed.hazard),
            }
        }
        (Class::Radionuclide, Medium::Water) => Terms {
            risk: given.water_radionuclide_risk(),
            hazard: no_side(),
        },
        (Class::Tritium, Medium::Soil) => {
            let none = no_side();
            Terms {
                risk: none,
                hazard: none,
            }
        }
        (Class::Tritium, Medium::Water) => Terms {
            risk: given.water_tritium_risk(),
            hazard: no_side(),
        },
    }
}

// The sum of a side's terms, from the left.
pub fn total(s: PathwayTerms, dir: Direction) -> Number
    requires { WideSide s }
    ensures { (result ≡ sum_of dir (sum_of dir s.first s.second) s.third) × TotalSize result }
{
    s.first.add(s.second, dir).add(s.third, dir)
}
