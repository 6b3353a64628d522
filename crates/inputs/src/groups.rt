// The decimals of a scenario and of a contaminant in groups, each a struct and an array. Zero means not known, or not part of this
// scenario, in every decimal.
ghost use Rattle.std.specs.Prelude.{◌≡◌};
ghost use Rattle.inputs.specs.Inputs.{exposure_decimals, contact_decimals, target_decimals, house_decimals, ages_decimals, toxicity_decimals, transfer_decimals, air_decimals};

// How often and how long, and of whom: exposure frequency, days per year; exposure duration, years; body weight, kg;
// averaging time, years.
#[derive(Clone, Copy)]
pub struct Exposure<T> {
    pub ef: T,
    pub ed: T,
    pub bw: T,
    pub at: T,
}

// How much meets the body: ingestion, mg of soil or litres of water a day; inhalation, m³ a day (m³ an hour in a list with
// tritium); particulate emission factor, m³/kg; hours a day, outdoors, with skin in water, or in the shower (tritium); dose
// reduction factor; skin, cm² (m² in a list with tritium).
#[derive(Clone, Copy)]
pub struct Contact<T> {
    pub ir: T,
    pub ira: T,
    pub pef: T,
    pub et: T,
    pub rf: T,
    pub sa: T,
}

// Target risk and target hazard.
#[derive(Clone, Copy)]
pub struct Targets<T> {
    pub tr: T,
    pub thi: T,
}

// The house of tritium in water: moisture of the air, g/m³; fraction of the day indoors; showers a day; shower volumes; volume of the
// shower, m³; air changes an hour; volume of the house, m³; skin permeability, m/hr.
#[derive(Clone, Copy)]
pub struct House<T> {
    pub m: T,
    pub f: T,
    pub n: T,
    pub s: T,
    pub v: T,
    pub l: T,
    pub w: T,
    pub k: T,
}

// Of a child or of an adult: skin that meets soil, cm²; how often and how long, days per year and years; body weight, kg.
#[derive(Clone, Copy)]
pub struct Age<T> {
    pub sa: T,
    pub ef: T,
    pub ed: T,
    pub bw: T,
}

// Soil on skin: the child, the adult, and the adherence of soil to skin, mg/cm².
#[derive(Clone, Copy)]
pub struct Ages<T> {
    pub child: Age<T>,
    pub adult: Age<T>,
    pub af: T,
}

// Slope factors, oral, inhaled and external; reference doses, oral and inhaled.
#[derive(Clone, Copy)]
pub struct Toxicity<T> {
    pub sfo: T,
    pub sfi: T,
    pub sfx: T,
    pub rfdo: T,
    pub rfdi: T,
}

// Volatilization factor, m³/kg, and skin permeability, cm/hr.
#[derive(Clone, Copy)]
pub struct Transfer<T> {
    pub vf: T,
    pub pc: T,
}

// Toxicity by concentration in the air: unit risk, per µg/m³; reference concentration, mg/m³.
#[derive(Clone, Copy)]
pub struct AirToxicity<T> {
    pub u: T,
    pub q: T,
}

// Each group as an array, in the order of the block, and out of one.
impl<T: Copy> From<[T; 4]> for Exposure<T> {
    ghost from_gives = { λ l x. exposure_decimals x ≡ l };

    fn from(values: [T; 4]) -> Exposure<T> {
        let [ef, ed, bw, at] = values;
        Exposure { ef, ed, bw, at }
    }
}

impl<T: Copy> From<Exposure<T>> for [T; 4] {
    ghost from_gives = { λ x l. l ≡ exposure_decimals x };

    fn from(x: Exposure<T>) -> [T; 4] {
        [x.ef, x.ed, x.bw, x.at]
    }
}

impl<T: Copy> From<[T; 6]> for Contact<T> {
    ghost from_gives = { λ l x. contact_decimals x ≡ l };

    fn from(values: [T; 6]) -> Contact<T> {
        let [ir, ira, pef, et, rf, sa] = values;
        Contact {
            ir,
            ira,
            pef,
            et,
            rf,
            sa,
        }
    }
}

impl<T: Copy> From<Contact<T>> for [T; 6] {
    ghost from_gives = { λ x l. l ≡ contact_decimals x };

    fn from(x: Contact<T>) -> [T; 6] {
        [x.ir, x.ira, x.pef, x.et, x.rf, x.sa]
    }
}

impl<T: Copy> From<[T; 2]> for Targets<T> {
    ghost from_gives = { λ l x. target_decimals x ≡ l };

    fn from(values: [T; 2]) -> Targets<T> {
        let [tr, thi] = values;
        Targets { tr, thi }
    }
}

impl<T: Copy> From<Targets<T>> for [T; 2] {
    ghost from_gives = { λ x l. l ≡ target_decimals x };

    fn from(x: Targets<T>) -> [T; 2] {
        [x.tr, x.thi]
    }
}

impl<T: Copy> From<[T; 8]> for House<T> {
    ghost from_gives = { λ l x. house_decimals x ≡ l };

    fn from(values: [T; 8]) -> House<T> {
        let [m, f, n, s, v, l, w, k] = values;
        House {
            m,
            f,
            n,
            s,
            v,
            l,
            w,
            k,
        }
    }
}

impl<T: Copy> From<House<T>> for [T; 8] {
    ghost from_gives = { λ x l. l ≡ house_decimals x };

    fn from(x: House<T>) -> [T; 8] {
        [x.m, x.f, x.n, x.s, x.v, x.l, x.w, x.k]
    }
}

impl<T: Copy> From<[T; 9]> for Ages<T> {
    ghost from_gives = { λ l x. ages_decimals x ≡ l };

    fn from(values: [T; 9]) -> Ages<T> {
        let [sa, ef, ed, bw, adult_sa, adult_ef, adult_ed, adult_bw, af] = values;
        let child = Age { sa, ef, ed, bw };
        let adult = Age {
            sa: adult_sa,
            ef: adult_ef,
            ed: adult_ed,
            bw: adult_bw,
        };
        Ages { child, adult, af }
    }
}

impl<T: Copy> From<Ages<T>> for [T; 9] {
    ghost from_gives = { λ x l. l ≡ ages_decimals x };

    fn from(x: Ages<T>) -> [T; 9] {
        let Age { sa, ef, ed, bw } = x.child;
        let a = x.adult;
        [sa, ef, ed, bw, a.sa, a.ef, a.ed, a.bw, x.af]
    }
}

impl<T: Copy> From<[T; 5]> for Toxicity<T> {
    ghost from_gives = { λ l x. toxicity_decimals x ≡ l };

    fn from(values: [T; 5]) -> Toxicity<T> {
        let [sfo, sfi, sfx, rfdo, rfdi] = values;
        Toxicity {
            sfo,
            sfi,
            sfx,
            rfdo,
            rfdi,
        }
    }
}

impl<T: Copy> From<Toxicity<T>> for [T; 5] {
    ghost from_gives = { λ x l. l ≡ toxicity_decimals x };

    fn from(x: Toxicity<T>) -> [T; 5] {
        [x.sfo, x.sfi, x.sfx, x.rfdo, x.rfdi]
    }
}

impl<T: Copy> From<[T; 2]> for Transfer<T> {
    ghost from_gives = { λ l x. transfer_decimals x ≡ l };

    fn from(values: [T; 2]) -> Transfer<T> {
        let [vf, pc] = values;
        Transfer { vf, pc }
    }
}

impl<T: Copy> From<Transfer<T>> for [T; 2] {
    ghost from_gives = { λ x l. l ≡ transfer_decimals x };

    fn from(x: Transfer<T>) -> [T; 2] {
        [x.vf, x.pc]
    }
}

impl<T: Copy> From<[T; 2]> for AirToxicity<T> {
    ghost from_gives = { λ l x. air_decimals x ≡ l };

    fn from(values: [T; 2]) -> AirToxicity<T> {
        let [u, q] = values;
        AirToxicity { u, q }
    }
}

impl<T: Copy> From<AirToxicity<T>> for [T; 2] {
    ghost from_gives = { λ x l. l ≡ air_decimals x };

    fn from(x: AirToxicity<T>) -> [T; 2] {
        [x.u, x.q]
    }
}
