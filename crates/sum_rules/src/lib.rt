// The answer of the list call. The rules are in specs/ and the promises in proofs/; there is no function.
#![tactic(auto)]

use decimal::Decimal;
use formulas::Sides;

// The verdict of a side.
#[derive(Clone, Copy)]
pub enum Verdict {
    Within,
    Above,
    Undecided,
    NoPathway,
}

// The reported sums of a side and its verdict.
#[derive(Clone, Copy)]
pub struct SideSums {
    pub lower: Decimal,
    pub upper: Decimal,
    pub verdict: Verdict,
}

// Those of both sides: what an accepted call answers.
pub type Sums = Sides<SideSums>;
