//! The program: a run file on standard input to its listing on standard output.
#![tactic(auto)]

ghost use Rattle.std.specs.Prelude.{◌≡◌, ◌+◌, ◌<◌, ◌≤◌, IfOk, IfSome, OnOk, length, take, drop, true, is_ok, if◌then◌else◌};
ghost use Rattle.std.specs.Process.{exit_status};
ghost use Rattle.std.specs.Io.KnownBytes.{Appends, Consumes, IsAtEnd};
ghost use Rattle.runfile.specs.File.{Outcome, Comes};
ghost use Rattle.carry.specs.Items.{refuses};
ghost use Rattle.carry.specs.Listing.{listing};

#[cfg(test)]
mod tests;

use anyhow::anyhow;
use carry::carry;
use std::alloc::Global;
use std::io;
use std::io::{Read, Write};
use std::process::ExitCode;

// The longest file that is accepted, and one byte more, by which a longer one is told.
const MOST: u64 = 65537;

// One read into a buffer behind its first `at` bytes, with all the room that is there.
fn read_at<R: Read>(input: &mut R, buf: &mut [u8], at: usize) -> io::Result<usize>
    requires { at < length buf.old }
    ensures front { take at buf.new ≡ take at buf.old }
    ensures fits { IfOk result (λ n. at + n ≤ length buf.new) }
    ensures ok { IfOk result (λ n. Consumes (R.remaining input.old) (R.remaining input.new) (take n (drop at buf.new))) }
    ensures end { IfOk result (λ n. n ≡ 0 → IsAtEnd (R.remaining input.new)) }
{
    input.read(&mut buf[at..])
}

// The first bytes of an input, at most 65,537. Each read has all the room that is left, which `read_to_end` would not give it:
// where a socket hands over whole messages, what a read has no room for is lost.
fn read_file<R: Read>(alloc: Global, input: &mut R) -> anyhow::Result<Vec<u8>>
    ensures { IfOk result (λ file. IfSome (R.remaining input.old) (λ bytes. file.items ≡ take 65537 bytes)) }
{
    let mut file = vec![in alloc; 0u8; MOST as usize]?;
    let mut len = 0;
    while len < file.len() {
        let n = read_at(input, file.as_mut_slice(), len)?;
        if n == 0 {
            file.truncate(len);
            return Ok(file);
        }
        len += n;
    }
    Ok(file)
}

// Writes the listing of a run file.
fn list<R: Read, W: Write>(alloc: Global, input: &mut R, output: &mut W) -> anyhow::Result<()>
    ensures { OnOk result (IfSome (R.remaining input.old) (λ bytes. (o : Outcome) × Comes refuses (take 65537 bytes) o × Appends (W.contents output.old) (W.contents output.new) (listing o))) }
{
    let file = read_file(alloc, input)?;
    let mut out = Vec::new(alloc);
    carry(&file, &mut out).map_err(|_| anyhow!("no memory for the listing"))?;
    output.write_all(&out)?;
    Ok(())
}

// Tells what went wrong, if something did, and how the program ends: with status 0, or with 1.
fn ended(rt: &HostRuntime, listed: anyhow::Result<()>) -> anyhow::Result<ExitCode>
    ensures status { IfOk result (λ code. exit_status code ≡ (if is_ok listed then 0 else 1)) }
    ensures well { OnOk listed (is_ok result ≡ true) }
{
    let Err(error) = listed else {
        return Ok(ExitCode::SUCCESS);
    };
    eprintln!(rt; "gaps: {error}")?;
    Ok(ExitCode::FAILURE)
}

fn main(rt: HostRuntime) -> anyhow::Result<ExitCode> {
    let listed = list(rt.alloc(), &mut rt.stdin(), &mut rt.stdout());
    ended(&rt, listed)
}
