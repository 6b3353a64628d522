// Why a call is refused: one of eleven refusals, and the block that it concerns. A call that can be refused answers a Result.
#![tactic(auto)]

ghost use Rattle.std.specs.Prelude.{◌≡◌};
ghost use Rattle.outcome.specs.Outcome.{refusal_number, number_of, block_of, concerning, located};

// The word of each refusal, in the order of their numbers. The places, from 1, are not the numbers, which leave out 9: `u32::from` gives those.
#[derive(Clone, Copy)]
pub enum Refusal {
    Length = 1,
    Check,
    Kind,
    Field,
    Count,
    Factor,
    Order,
    Pathway,
    Room,
    Scenario,
    House,
}

// The number that none of them has.
pub const NOT_USED: u32 = 9;

// A refusal and the block that it concerns.
#[derive(Clone, Copy)]
pub struct Refused {
    pub refusal: Refusal,
    pub block: u32,
}

// The number of a refusal: its place in the enum, or one more behind the number that is not used. Written out in the enum, the gap
// would be a table in the read-only section wherever this is inlined.
impl From<Refusal> for u32 {
    ghost from_gives = { λ n r. r ≡ refusal_number n };

    fn from(n: Refusal) -> u32 {
        let place = n as u32;
        if place < NOT_USED { place } else { place + 1 }
    }
}

impl Refusal {
    // The refusal with the block that it concerns.
    pub fn in_block(self, block: u32) -> Refused
        ensures { result ≡ concerning self block }
    {
        Refused {
            refusal: self,
            block,
        }
    }
}

// What tests of a block answer, with that block where they refuse it.
pub fn located<T: Copy>(tested: Result<T, Refusal>, block: u32) -> Result<T, Refused>
    ensures { result ≡ located tested block }
{
    tested.map_err(|refusal| refusal.in_block(block))
}

// The number that an answer sends back: 0 where it is accepted.
pub fn number<T: Copy>(answer: Result<T, Refused>) -> u32
    ensures { result ≡ number_of answer }
{
    match answer {
        Ok(_) => 0,
        Err(refused) => u32::from(refused.refusal),
    }
}

// The block that an answer sends back: 0 where it is accepted.
pub fn block<T: Copy>(answer: Result<T, Refused>) -> u32
    ensures { result ≡ block_of answer }
{
    match answer {
        Ok(_) => 0,
        Err(refused) => refused.block,
    }
}
