// What the programs of stored cases print: numbers and decimals, a space before each, and the weighed bytes of an output.
#![tactic(auto)]

ghost use Rattle.std.specs.Prelude.{◌≡◌, ◌≤◌, length, OnOk};
ghost use Rattle.std.specs.Io.KnownBytes.{Appends};
ghost use Rattle.case_output.specs.Printed.{next_text, pair_text, all_text, weight};

use decimal::Decimal;
use std::io::{self, Write};

// Prints a space and a number.
#[tactic(auto, unfolding(crate::specs::Printed::next_text))]
pub fn print_next<W: Write>(output: &mut W, n: u32) -> io::Result<()>
    ensures { OnOk result (Appends (W.contents output.old) (W.contents output.new) (next_text n)) }
{
    write!(output, " {n}")
}

// Prints a space, m, a space and e.
#[tactic(auto, unfolding(crate::specs::Printed::pair_text, crate::specs::Printed::next_text))]
pub fn print_pair<W: Write>(output: &mut W, d: Decimal) -> io::Result<()>
    ensures { OnOk result (Appends (W.contents output.old) (W.contents output.new) (pair_text d)) }
{
    write!(output, " {} {}", d.m, d.e)
}

// Prints decimals one after the other.
pub fn print_all<W: Write>(output: &mut W, ds: &[Decimal]) -> io::Result<()>
    ensures { OnOk result (Appends (W.contents output.old) (W.contents output.new) (all_text ds.now)) }
{
    for d in ds {
        print_pair(output, *d)?;
    }
    Ok(())
}

// The bytes of an output, each times its place from 1, added modulo 4,294,967,296.
pub fn weigh(out: &[u8]) -> u32
    requires { length out.now ≤ 65536 }
    ensures { result ≡ weight out.now }
{
    let mut t: u32 = 0;
    for (i, byte) in out.iter().enumerate() {
        t = t.wrapping_add((i as u32 + 1) * (*byte as u32));
    }
    t
}
