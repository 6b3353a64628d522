// How the programs read: as many bytes as are asked for, unless the input ends before; a word; one case after the other.
#![tactic(auto)]

ghost use Rattle.std.specs.Prelude.{◌≤◌, ◌<◌, length, take, IfOk, IfSome, OnOk, Ok};
ghost use Rattle.std.specs.Io.KnownBytes.{Consumes, IsAtEnd};
ghost use Rattle.input_bytes.specs.Reading.{SpeltByNext, RunsOut};

use std::io::{self, Error, ErrorKind, Read};

// Reads until the buffer is full or the input ends, and answers how many bytes stand at the start of the buffer: the next
// ones of the input, all that it had left where they do not fill the buffer. A read that fails is an error and not the end,
// so that no part of the input is taken for the whole.
pub fn read_full<R: Read>(input: &mut R, buf: &mut [u8]) -> io::Result<usize>
    ensures bound { IfOk result (λ n. n ≤ length buf.new) }
    ensures bytes { IfOk result (λ n. Consumes (R.remaining input.old) (R.remaining input.new) (take n buf.new)) }
    ensures end { IfOk result (λ n. n < length buf.new → IsAtEnd (R.remaining input.new)) }
{
    let mut done: usize = 0;
    while done < buf.len() {
        let n = input.read(&mut buf[done..])?;
        if n == 0 {
            break;
        }
        done += n;
    }
    Ok(done)
}

// The next word of four bytes, lowest byte first, or none where the input ends before.
pub fn next_word<R: Read>(input: &mut R) -> io::Result<Option<u32>>
    ensures { IfOk result (λ o. IfSome o (λ w. SpeltByNext (R.remaining input.old) (R.remaining input.new) w)) }
{
    let mut bytes = [0u8; 4];
    if read_full(input, &mut bytes)? < 4 {
        return Ok(None);
    }
    Ok(Some(u32::from_le_bytes(bytes)))
}

// Calls `next_case` until it answers false, as it does when no case is left. A proved loop has to end, and nothing says that
// the input does: so the turns are counted, and more turns than there are numbers are an error.
pub fn run_cases<F: FnMut() -> io::Result<bool>>(mut next_case: F) -> io::Result<()>
    requires { F.IsAlwaysCallable next_case }
    ensures { OnOk result (RunsOut (λ f more g. F.step f (Ok more) g) next_case) }
{
    for _ in 0..u64::MAX {
        if !next_case()? {
            return Ok(());
        }
    }
    Err(Error::from(ErrorKind::Other))
}
