// The begin of a run, on any bytes and any words.
ghost use Rattle.std.specs.Prelude.{◌≡◌};
ghost use Rattle.answer.specs.Carried.{whole};
ghost use Rattle.playing.specs.Play.{begun};

use crate::taking::take_values;
use answer::Answer;
use answer::refusals::Refusal;
use board::making;
use runfile::file;

// Makes the area that a run file starts with. 11 where the bytes are no run file, then making's own numbers.
#[tactic(auto, using(crate::proofs::Starting::few_starting), unfolding(crate::specs::Play::begun))]
pub fn begin_run(file: &[u8], area: &mut [u64]) -> Answer
    ensures { whole result area.new ≡ begun file.now area.old }
{
    if !file::is_run_file(file) {
        return Err(Refusal::NoRunFile);
    }
    let h = file::header(file);
    let mut words = [0; 32];
    let record = &mut words[..h.starting as usize];
    take_values(file, 0, record);
    making::make(1, u64::from(h.n), u64::from(h.c), record, area)
}
