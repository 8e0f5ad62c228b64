// One decoded move of a run file, played on an area. Any bytes, any words and any number of values used up are taken,
// one by one: who plays a whole run holds them together (`Run` of `bench`).
ghost use Rattle.std.specs.Prelude.{true, ◌≡◌, ◌+◌, ◌≤◌, leb};
ghost use Rattle.runfile.specs.RunFile.{values, values_for};
ghost use Rattle.runfile.specs.Code.{as_call};
ghost use Rattle.playing.specs.Play.{outcome};
ghost use Rattle.playing.specs.Code.{as_outcome, state};

use crate::taking::take_values;
use crate::types::Played;
use answer::refusals::Refusal;
use board::{reads, steps, writes};
use runfile::file;
use runfile::types::Call;

// One word more than the largest C.
const ONE_TOO_MANY: usize = 257;

// The call that a move asks for. What is refused has its number, and changes nothing.
pub fn play_call(file: &[u8], call: Call, area: &mut [u64], used: u64) -> Played
    ensures { as_outcome result area.new
        ≡ outcome file.now (state area.old used) (as_call call) }
{
    // A match, and no closure of the caller's: a move asks for one of these three.
    match call {
        Call::Values(len) => play_write(file, len, area, used),
        Call::Read(p) => Played {
            answer: reads::begin_read(area, p),
            used,
        },
        Call::Step(p) => Played {
            answer: steps::step(area, p),
            used,
        },
    }
}

// A begin of a write of the next values, where so many are left: an accepted one uses up its own. A record of one word
// more than the largest C is too long for every area, so of a longer one no more are taken.
fn play_write(file: &[u8], len: u64, area: &mut [u64], used: u64) -> Played
    ensures { as_outcome result area.new
        ≡ outcome file.now (state area.old used) (values_for len) }
{
    if !enough_left(file, used, len) {
        return Played {
            answer: Err(Refusal::TooFewValues),
            used,
        };
    }
    let mut words = [0; ONE_TOO_MANY];
    let record = &mut words[..len.min(ONE_TOO_MANY as u64) as usize];
    take_values(file, used as u32, record);
    let answer = writes::begin_write(area, record);
    let used = if answer.is_ok() { used + len } else { used };
    Played { answer, used }
}

// Whether so many values are left.
fn enough_left(file: &[u8], used: u64, len: u64) -> bool
    ensures value { result ≡ leb (used + len) (values file.now) }
    ensures len_bound { result ≡ true → used + len ≤ 4294967295 }
{
    let count = u64::from(file::header(file).values);
    len <= count && used <= count - len
}
