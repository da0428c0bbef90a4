// Plays a script of 32-byte records from standard input, and writes a record for each to standard output. The work is
// the libraries': here bytes are read and written, and nothing else.
#![tactic(auto)]

ghost use Rattle.std.specs.Prelude.{◌≤◌, length};

use night::BLOCK;
use opening::REGION;
use records::Record;
use std::io;
use std::io::Read;

// A loop needs a bound, and no input takes as many reads: it ends where the input does.
const READS: u64 = 0x4000_0000_0000_0000;

// What failed, and why.
#[derive(Clone, Copy)]
enum Failed {
    Input(io::Error),
    Output(io::Error),
}

// As many bytes as the input holds now, with those that were left; none where it has ended.
fn read_behind(from: &mut impl Read, input: &mut [u8], left: usize) -> Result<Option<usize>, Failed>
    requires { left ≤ length input.old }
{
    let got = from.read(&mut input[left..]).map_err(Failed::Input)?;
    Ok((got > 0).then_some(left + got))
}

fn tell(rt: &impl Print, reports: &[u8]) -> Result<(), Failed> {
    rt.write_all(reports).map_err(Failed::Output)
}

// The input has ended: what is left of it is a cut record.
fn finish(rt: &impl Print, left: usize) -> Result<(), Failed> {
    if left == 0 {
        return Ok(());
    }
    let mut report = [0u8; Record::BYTES];
    reports::cut_report(&mut report);
    tell(rt, &report)
}

fn play(rt: &impl Print, from: &mut impl Read) -> Result<(), Failed> {
    let mut region = [0u8; REGION];
    let mut input = [0u8; BLOCK];
    let mut out = [0u8; BLOCK];
    let mut player = opening::start(&mut region);
    let mut left = 0;
    for _ in 0..READS {
        let Some(have) = read_behind(from, &mut input, left)? else {
            return finish(rt, left);
        };
        let fed = night::feed(&mut region, &mut player, &mut input, have, &mut out);
        tell(rt, &out[..fed.told])?;
        left = fed.left;
    }
    Ok(())
}

fn main(rt: HostRuntime) {
    let _ = match play(&rt, &mut rt.stdin()) {
        Ok(()) => Ok(()),
        Err(Failed::Input(e)) => eprintln!(rt; "play: standard input: {e}"),
        Err(Failed::Output(e)) => eprintln!(rt; "play: standard output: {e}"),
    };
}
