// The calls of the program call_cases that write a block: each is lent some bytes, and what it left there is printed, weighed.
#![tactic(auto)]

ghost use Rattle.std.specs.Prelude.{◌≤◌, ◌++◌, length, OnOk};
ghost use Rattle.std.specs.Io.KnownBytes.{Appends};
ghost use Rattle.outcome.specs.Outcome.{number_of, block_of};
ghost use Rattle.case_output.specs.Printed.{next_text, weight};

use call_records::{read_contaminant, read_header};
use case_output::{print_next, weigh};
use outcome::Refused;
use std::io::{self, Read, Write};

// Prints what a writer sends back and leaves: refusal, block, and the weighed output.
fn print_written<W: Write>(output: &mut W, a: Result<(), Refused>, out: &[u8]) -> io::Result<()>
    requires { length out.now ≤ 1024 }
    ensures { OnOk result (Appends (W.contents output.old) (W.contents output.new) (next_text (number_of a) ++ next_text (block_of a) ++ next_text (weight out.now))) }
{
    print_next(output, outcome::number(a))?;
    print_next(output, outcome::block(a))?;
    print_next(output, weigh(out))
}

// Lends a writer so many bytes, 0 to 1024: each 165, so that a byte that is written shows. For more nothing is read or printed.
fn lend<W: Write, F: FnOnce(&mut [u8]) -> io::Result<Result<(), Refused>>>(
    output: &mut W,
    room: usize,
    write: F,
) -> io::Result<()>
    requires { F.IsAlwaysCallable write }
{
    if 1024 < room {
        return Ok(());
    }
    let mut out = [165u8; 1024];
    let a = write(&mut out[..room])?;
    print_written(output, a, &out[..room])
}

// Call 3, on a header block: its writer, into all of the output. Call 4, on a contaminant block: its writer, for the given place.
pub fn run_writer<R: Read, W: Write>(
    input: &mut R,
    output: &mut W,
    call: u32,
    room: usize,
    place: u32,
) -> io::Result<()> {
    match call {
        3 => lend(output, room, |out| {
            Ok(writers::write_header(out, read_header(input)?))
        }),
        _ => lend(output, room, |out| {
            Ok(writers::write_contaminant(out, place, read_contaminant(input)?))
        }),
    }
}
