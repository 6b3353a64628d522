// What stands before a record in its list.
ghost use Rattle.std.specs.Prelude.{◌≡◌};
ghost use Rattle.inputs.specs.Earlier.{before_next, mixed};

use crate::{CHEMICAL, Contaminant, TRITIUM};

// The id of the record before, and whether a chemical and whether tritium stands anywhere before.
#[derive(Clone, Copy)]
pub struct Earlier {
    pub id: u32,
    pub chemical: bool,
    pub tritium: bool,
}

impl Earlier {
    // Nothing: before the first record.
    pub const NONE: Earlier = Earlier {
        id: 0,
        chemical: false,
        tritium: false,
    };

    // What stands before the next record.
    pub fn next(self, r: Contaminant) -> Earlier
        ensures { result ≡ before_next self r }
    {
        Earlier {
            id: r.id,
            chemical: self.chemical | (r.class == CHEMICAL),
            tritium: self.tritium | (r.class == TRITIUM),
        }
    }

    // Whether the record would stand in one list with the other of the two.
    pub fn mixed(self, r: Contaminant) -> bool
        ensures { result ≡ mixed self r }
    {
        let chemical = (r.class == CHEMICAL) & self.tritium;
        let tritium = (r.class == TRITIUM) & self.chemical;
        chemical | tritium
    }
}
