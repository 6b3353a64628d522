// gvlist: reads a site on standard input and prints its listing.
#![tactic(auto)]

ghost use Rattle.std.specs.Prelude.{◌≡◌, ◌≤◌, ◌<◌, length, take, IfOk, OnOk};
ghost use Rattle.std.specs.Io.KnownBytes.{Consumes, IsAtEnd, Appends};
ghost use Rattle.listing_rules.specs.Listing.{listing_of};

use input_bytes::read_full;
use std::io::{self, Read, Write};

// The next bytes of the input, as many as the buffer holds, or all that are left.
fn read_site<'a, R: Read>(input: &mut R, buf: &'a mut [u8]) -> io::Result<&'a [u8]>
    ensures bound { IfOk result (λ site. length site.now ≤ length buf.old) }
    ensures bytes { IfOk result (λ site. Consumes (R.remaining input.old) (R.remaining input.new) site.now) }
    ensures end { IfOk result (λ site. length site.now < length buf.old → IsAtEnd (R.remaining input.new)) }
{
    let n = read_full(input, buf)?;
    Ok(&buf[..n])
}

// Puts the listing of a site, all of it, at the start of a text that has room for every listing.
fn list_text(site: &[u8], text: &mut [u8]) -> usize
    requires { 24576 ≤ length text.old }
    ensures prefix_len { result ≤ length text.new }
    ensures whole_prefix { result ≡ length (take result text.new) }
    ensures text_after { take result text.new ≡ listing_of site.now 65536 }
{
    let mut results = [0u8; 65536];
    let listed = listing::list_site(site, &mut results, text);
    listed.length
}

// Lists the site and writes the text.
fn write_listing<W: Write>(site: &[u8], output: &mut W) -> io::Result<()>
    ensures { OnOk result (Appends (W.contents output.old) (W.contents output.new) (listing_of site.now 65536)) }
{
    let mut text = [0u8; 24576];
    let n = list_text(site, &mut text);
    output.write_all(&text[..n])
}

// Says on standard error what went wrong, if it did, and hands the answer on. Where that message cannot be written
// either, the first error is the one to tell.
fn explained<T>(rt: &impl Eprint, what: &str, answer: io::Result<T>) -> io::Result<T>
    ensures { result ≡ answer }
{
    if answer.is_err() {
        let _ = eprintln!(rt; "gvlist: {what} failed");
    }
    answer
}

// The buffer holds more than the longest site, 61,952 bytes: an input that is longer is refused, and not cut.
fn main(rt: HostRuntime) -> io::Result<()> {
    let mut buf = [0u8; 65536];
    let read = read_site(&mut rt.stdin(), &mut buf);
    let site = explained(&rt, "reading standard input", read)?;
    let written = write_listing(site, &mut rt.stdout());
    explained(&rt, "writing to standard output", written)
}
