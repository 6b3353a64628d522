// Runs the calls that stand beside the site call on the stored cases of standard input. A case is three words of four bytes,
// lowest first, the call, its argument and a count, and then the blocks that the call takes: 288 bytes of a header and 128 of a contaminant,
// which hold all that is read here. The checks of a block are left out, so that values which no file may hold reach the calls
// too. Each case prints a line: the number of its call, and what came back. The crates value_calls and writer_calls run the calls.
#![tactic(auto)]

use input_bytes::{next_word, read_full, run_cases};
use std::io::{self, Read, Write};
use value_calls::{run_built_in, run_decimals, run_guideline, run_list};
use writer_calls::run_writer;

// Runs a call and prints its line. The count is that of a list's records, or the place that is written.
fn run_call<R: Read, W: Write>(
    input: &mut R,
    output: &mut W,
    call: u32,
    argument: u32,
    count: u32,
) -> io::Result<()> {
    write!(output, "{call}")?;
    match call {
        1 => run_guideline(input, output)?,
        2 => run_list(input, output, count as usize)?,
        3 | 4 => run_writer(input, output, call, argument as usize, count)?,
        5 => run_built_in(output, argument)?,
        6 => run_decimals(input, output, argument)?,
        _ => {}
    }
    output.write_all(b"\n")
}

// Reads a case and runs it. False when the input has no whole case left. The three words are read at once: an input that ends
// before them is asked once, and not once for each.
fn next_case<R: Read, W: Write>(input: &mut R, output: &mut W) -> io::Result<bool> {
    let mut head = [0u8; 12];
    if read_full(input, &mut head)? < 12 {
        return Ok(false);
    }
    let mut given = &head[..];
    let (Some(call), Some(argument), Some(count)) = (
        next_word(&mut given)?,
        next_word(&mut given)?,
        next_word(&mut given)?,
    ) else {
        return Ok(false);
    };
    run_call(input, output, call, argument, count)?;
    Ok(true)
}

fn main(rt: HostRuntime) -> io::Result<()> {
    let mut input = rt.stdin();
    let mut output = rt.stdout();
    run_cases(|| next_case(&mut input, &mut output))
}
