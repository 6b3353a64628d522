// The calls of the program call_cases that send values back: the single guideline, the sums of a list, the built-in scenarios and
// the operations on decimals. Each reads the blocks that it takes, makes its call and prints what came back.
#![tactic(auto)]

ghost use Rattle.std.specs.Prelude.{◌≡◌, OnOk};
ghost use Rattle.std.specs.Io.KnownBytes.{Appends};
ghost use Rattle.inputs.specs.BuiltIn.{built_in_of};
ghost use Rattle.value_calls.specs.Sent.{answered_text, side_text, guidelines_text, sums_text, factors_text, built_in_text, direction_of, operation_of};

use call_records::{read_contaminant, read_header, read_records};
use case_output::{print_all, print_next, print_pair};
use decimal::Decimal;
use guideline_rules::{Guidelines, SideGuidelines};
use inputs::Scenario;
use outcome::Refused;
use rounding::Direction;
use std::io::{self, Read, Write};
use sum_rules::Sums;

// The longest list that a case lends: one record more than the call takes.
const RECORDS: usize = 121;

// The guidelines of a refused call.
const NO_SIDE: SideGuidelines = SideGuidelines {
    first: Decimal::ZERO,
    second: Decimal::ZERO,
    third: Decimal::ZERO,
    total: Decimal::ZERO,
};

const NO_GUIDELINES: Guidelines = Guidelines {
    risk: NO_SIDE,
    hazard: NO_SIDE,
};

// Prints the number and the block that an answer sends back.
fn print_answered<W: Write, T: Copy>(output: &mut W, a: Result<T, Refused>) -> io::Result<()>
    ensures { OnOk result (Appends (W.contents output.old) (W.contents output.new) (answered_text a)) }
{
    print_next(output, outcome::number(a))?;
    print_next(output, outcome::block(a))
}

// Prints four decimals of a side's guidelines.
fn print_side<W: Write>(output: &mut W, g: SideGuidelines) -> io::Result<()>
    ensures { OnOk result (Appends (W.contents output.old) (W.contents output.new) (side_text g)) }
{
    print_all(output, &[g.first, g.second, g.third, g.total])
}

// Prints what the single guideline sends back: refusal, block, eight decimals, zeros where it is refused.
fn print_guidelines<W: Write>(output: &mut W, a: Result<Guidelines, Refused>) -> io::Result<()>
    ensures { OnOk result (Appends (W.contents output.old) (W.contents output.new) (guidelines_text a)) }
{
    print_answered(output, a)?;
    let g = a.unwrap_or(NO_GUIDELINES);
    print_side(output, g.risk)?;
    print_side(output, g.hazard)
}

// Prints what the list call sends back: refusal, block, four sums, two verdicts, zeros where it is refused.
fn print_sums<W: Write>(output: &mut W, a: Result<Sums, Refused>) -> io::Result<()>
    ensures { OnOk result (Appends (W.contents output.old) (W.contents output.new) (sums_text a)) }
{
    print_answered(output, a)?;
    match a {
        Ok(s) => {
            print_all(
                output,
                &[s.risk.lower, s.risk.upper, s.hazard.lower, s.hazard.upper],
            )?;
            print_next(output, sums::verdict_number(s.risk.verdict))?;
            print_next(output, sums::verdict_number(s.hazard.verdict))
        }
        Err(_) => {
            print_all(output, &[Decimal::ZERO; 4])?;
            print_next(output, 0)?;
            print_next(output, 0)
        }
    }
}

// Prints the factors of a scenario.
#[tactic(auto, unfolding(crate::specs::Sent::factors_text))]
fn print_factors<W: Write>(output: &mut W, s: Scenario) -> io::Result<()>
    ensures { OnOk result (Appends (W.contents output.old) (W.contents output.new) (factors_text s)) }
{
    let x = s.exposure;
    let c = s.contact;
    let t = s.targets;
    let h = s.house;
    let a = s.ages.child;
    let b = s.ages.adult;
    let air = s.air_hours;
    let af = s.ages.af;
    print_all(
        output,
        &[
            x.ef, x.ed, x.bw, x.at, c.ir, c.ira, c.pef, c.et, c.rf, c.sa, t.tr, t.thi, h.m, h.f,
            h.n, h.s, h.v, h.l, h.w, h.k, air, a.sa, a.ef, a.ed, a.bw, b.sa, b.ef, b.ed, b.bw, af,
        ],
    )
}

// Prints a built-in scenario: refusal, block, factors, zeros where it is refused.
fn print_built_in<W: Write>(output: &mut W, b: Result<Scenario, Refused>) -> io::Result<()>
    ensures { OnOk result (Appends (W.contents output.old) (W.contents output.new) (built_in_text b)) }
{
    print_answered(output, b)?;
    print_factors(output, b.unwrap_or(Scenario::BLANK))
}

// Call 1, on a header block and a contaminant block: the single guideline.
pub fn run_guideline<R: Read, W: Write>(input: &mut R, output: &mut W) -> io::Result<()> {
    let h = read_header(input)?;
    let r = read_contaminant(input)?;
    print_guidelines(output, guideline::guideline(h.scenario, h.medium, r))
}

// Call 2, on a header block and n contaminant blocks, 0 to 121: the sums of the list.
pub fn run_list<R: Read, W: Write>(input: &mut R, output: &mut W, n: usize) -> io::Result<()> {
    if RECORDS < n {
        return Ok(());
    }
    let h = read_header(input)?;
    let records = read_records(input, n)?;
    print_sums(output, records.sums(h.scenario, h.medium))
}

// Call 5: the built-in scenario of a number: refusal, block and factors.
pub fn run_built_in<W: Write>(output: &mut W, number: u32) -> io::Result<()>
    ensures { OnOk result (Appends (W.contents output.old) (W.contents output.new) (built_in_text (built_in_of number))) }
{
    print_built_in(output, Scenario::built_in(number))
}

// Down for an even choice, up for an odd one.
fn direction(choice: u32) -> Direction
    ensures { result ≡ direction_of choice }
{
    if choice % 2 == 0 {
        Direction::Down
    } else {
        Direction::Up
    }
}

// The operation of a choice from 0 to 6: product, quotient and sum, each down and up, and the working form.
fn operate(choice: u32, a: Decimal, b: Decimal) -> Decimal
    ensures { result ≡ operation_of choice a b }
{
    let rounded = direction(choice);
    match choice / 2 {
        0 => a.mul(b, rounded),
        1 => a.div(b, rounded),
        2 => a.add(b, rounded),
        _ => a.working(),
    }
}

// Call 6, on a contaminant block: an operation on its first two decimals, or, for choice 7, whether the first is at most the
// second.
pub fn run_decimals<R: Read, W: Write>(
    input: &mut R,
    output: &mut W,
    choice: u32,
) -> io::Result<()> {
    let r = read_contaminant(input)?;
    let t = r.toxicity;
    let a = t.sfo;
    let b = t.sfi;
    if choice < 7 {
        print_pair(output, operate(choice, a, b))
    } else {
        print_next(output, a.at_most(b) as u32)
    }
}
