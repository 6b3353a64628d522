// The media, the classes of contaminants and the ways to work out inhalation, and their numbers.
ghost use Rattle.std.specs.Prelude.{◌≡◌};
ghost use Rattle.inputs.specs.Kinds.{medium_number, class_number, header_kind, is_header_kind, inhalation_of};
ghost use Rattle.inputs.specs.Rules.{OneTo, most_medium, most_class};

// The media: 1 soil, 2 water.
pub const SOIL: u32 = 1;

pub const MOST_MEDIUM: u32 = 2;

// The classes: 1 chemical, 2 radionuclide, 3 tritium.
pub const CHEMICAL: u32 = 1;

const RADIONUCLIDE: u32 = 2;

pub const TRITIUM: u32 = 3;

pub const MOST_CLASS: u32 = TRITIUM;

// The kinds of a header: 1 where inhalation is worked out by intake, 6 by concentration.
const INTAKE: u32 = 1;

const CONCENTRATION: u32 = 6;

// What a header's medium stands for.
#[derive(Clone, Copy)]
pub enum Medium {
    Soil,
    Water,
}

// What a contaminant's class stands for.
#[derive(Clone, Copy)]
pub enum Class {
    Chemical,
    Radionuclide,
    Tritium,
}

// How inhalation of a chemical is worked out: by intake, over body weight (EPA's RAGS Part A), or by concentration, over
// the hours in the air (RAGS Part F).
#[derive(Clone, Copy)]
pub enum Inhalation {
    Intake,
    Concentration,
}

impl Medium {
    // The medium of a number that keeps its rule.
    pub fn of(n: u32) -> Medium
        requires { OneTo most_medium n }
        ensures { medium_number result ≡ n }
    {
        if n == SOIL {
            return Medium::Soil;
        }
        Medium::Water
    }
}

impl Class {
    // The class of a number that keeps its rule.
    pub fn of(n: u32) -> Class
        requires { OneTo most_class n }
        ensures { class_number result ≡ n }
    {
        if n == RADIONUCLIDE {
            return Class::Radionuclide;
        }
        if n == TRITIUM {
            return Class::Tritium;
        }
        Class::Chemical
    }
}

impl Inhalation {
    // What the kind of a header tells; any number but 6 stands for intake.
    pub fn of(kind: u32) -> Inhalation
        ensures { result ≡ inhalation_of kind }
    {
        if kind == CONCENTRATION {
            return Inhalation::Concentration;
        }
        Inhalation::Intake
    }

    // The kind of its headers.
    pub fn kind(self) -> u32
        ensures { result ≡ header_kind self }
    {
        match self {
            Inhalation::Intake => INTAKE,
            Inhalation::Concentration => CONCENTRATION,
        }
    }
}

// Whether it is the kind of a header.
pub fn is_header_kind(kind: u32) -> bool
    ensures { result ≡ is_header_kind kind }
{
    (kind == INTAKE) | (kind == CONCENTRATION)
}
