// The answer of the single guideline. The rules are in specs/ and the promises in proofs/; there is no function.
#![tactic(auto)]

use decimal::Decimal;
use formulas::Sides;

// The guidelines of a side: three pathways and the total; zero where absent.
#[derive(Clone, Copy)]
pub struct SideGuidelines {
    pub first: Decimal,
    pub second: Decimal,
    pub third: Decimal,
    pub total: Decimal,
}

// Those of both sides: what an accepted call answers.
pub type Guidelines = Sides<SideGuidelines>;
