// A whole script, played as it comes: in pieces, cut anywhere.
#![tactic(auto)]

ghost use Rattle.std.specs.Prelude.{◌≡◌, ◌++◌, ◌+◌, ◌*◌, ◌≤◌, ◌<◌, length, take, drop};
ghost use Rattle.std.proofs.lemmas.List.Edits.{sets};
ghost use Rattle.records.specs.Records.{record_bytes};
ghost use Rattle.opening.specs.Night.{night_of};
ghost use Rattle.script.specs.Script.{nights, reports};
ghost use Rattle.night.specs.Pieces.{block_bytes, whole_in, left_of};

use opening::{Player, REGION};
use records::Record;

// A piece is at most as long as this.
pub const BLOCK: usize = 65536;

// The whole records of a block, one after another: their reports stand at the start of out.
pub fn play_block(region: &mut [u8], player: &mut Player, script: &[u8], out: &mut [u8])
    requires { length script.now ≤ length out.old }
    ensures leaves { night_of region.new player.new ≡ nights (whole_in script.now) (night_of region.old player.old) script.now }
    ensures tells { out.new ≡ reports (whole_in script.now) (night_of region.old player.old) script.now ++ drop (record_bytes * whole_in script.now) out.old }
{
    // by number: of a slice cut by the library's chunks_exact_mut no contract says what it ends as
    for k in 0..script.len() / Record::BYTES {
        let at = Record::BYTES * k;
        let end = at + Record::BYTES;
        script::play_record(region, player, &script[at..end], &mut out[at..end]);
    }
}

// What comes of a piece of a script: how many bytes of reports there are, and how many bytes at the input's start wait
// for the next piece.
#[derive(Clone, Copy, PartialEq, Eq)]
pub struct Fed {
    pub told: usize,
    pub left: usize,
}

fn feed_slices(
    region: &mut [u8],
    player: &mut Player,
    input: &mut [u8],
    have: usize,
    out: &mut [u8],
) -> Fed
    requires { (have ≤ length input.old) × (have ≤ length out.old) }
    ensures leaves { night_of region.new player.new ≡ nights (whole_in (take have input.old)) (night_of region.old player.old) (take have input.old) }
    ensures tells { out.new ≡ reports (whole_in (take have input.old)) (night_of region.old player.old) (take have input.old) ++ drop (record_bytes * whole_in (take have input.old)) out.old }
    ensures waits { input.new ≡ sets input.old 0 (left_of (take have input.old)) }
    ensures counts { (result.told ≡ record_bytes * whole_in (take have input.old)) × (result.left ≡ length (left_of (take have input.old))) }
{
    let left = have % Record::BYTES;
    let told = have - left;
    play_block(region, player, &input[..have], out);
    runs::shift(input, told, left);
    Fed { told, left }
}

// A piece of a script: the first have bytes of input, of which some may be left from the piece before. Memory is fixed: the
// input has room for the longest piece.
pub fn feed(
    region: &mut [u8; REGION],
    player: &mut Player,
    input: &mut [u8; BLOCK],
    have: usize,
    out: &mut [u8; BLOCK],
) -> Fed
    ensures leaves { night_of region.new player.new ≡ nights (whole_in (take have input.old)) (night_of region.old player.old) (take have input.old) }
    ensures tells { out.new ≡ reports (whole_in (take have input.old)) (night_of region.old player.old) (take have input.old) ++ drop (record_bytes * whole_in (take have input.old)) out.old }
    ensures waits { input.new ≡ sets input.old 0 (left_of (take have input.old)) }
    ensures counts { (result.told ≡ record_bytes * whole_in (take have input.old)) × (result.left ≡ length (left_of (take have input.old))) }
    ensures within { (result.told ≤ block_bytes) × (result.left < record_bytes) × (length input.new ≡ block_bytes) × (length out.new ≡ block_bytes) }
{
    feed_slices(region, player, input, have.min(BLOCK), out)
}
