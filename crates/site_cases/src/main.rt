// Runs the site call and the listing on the stored cases of standard input. A case is the length of the site, the length
// of the output (4 bytes each, lowest first) and the site. For each case it prints the listing, the answer as one number
// in hexadecimal, and the sum of all output bytes, each times its place from 1, modulo 4,294,967,296. The crate
// site_calls runs a case.
#![tactic(auto)]

use input_bytes::{next_word, read_full, run_cases};
use site_calls::run_case;
use std::io::{self, Read, Write};

// Reads a case and runs it. False when the input has no whole case left. Both lengths are read at once: an input that ends
// before them is asked once, and not once for each.
fn next_case<R: Read, W: Write>(input: &mut R, output: &mut W) -> io::Result<bool> {
    let mut head = [0u8; 8];
    if read_full(input, &mut head)? < 8 {
        return Ok(false);
    }
    let mut given = &head[..];
    let (Some(n), Some(m)) = (next_word(&mut given)?, next_word(&mut given)?) else {
        return Ok(false);
    };
    let n = n as usize;
    let m = m as usize;
    if 65536 < n || 65536 < m {
        return Ok(false);
    }
    let mut site = [0u8; 65536];
    let mut out = [0u8; 65536];
    if read_full(input, &mut site[..n])? < n {
        return Ok(false);
    }
    run_case(output, &site[..n], &mut out[..m])?;
    Ok(true)
}

fn main(rt: HostRuntime) -> io::Result<()> {
    let mut input = rt.stdin();
    let mut output = rt.stdout();
    run_cases(|| next_case(&mut input, &mut output))
}
