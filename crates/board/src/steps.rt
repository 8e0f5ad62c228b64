// One step. It tests the area before anything else, and takes any words and any process.
ghost use Rattle.std.specs.Prelude.{◌≡◌};
ghost use Rattle.register.specs.Calls.{stepped};
ghost use Rattle.answer.specs.Carried.{whole};

use answer::Answer;
use answer::refusals::Refusal;
use area::lent::Area;
use std::cmp::Ordering;

// One step of a process: a reader below N, the writer at N.
pub fn step(area: &mut [u64], process: u64) -> Answer
    ensures { whole result area.new ≡ stepped area.old process }
{
    let layout = testing::tested(area)?;
    let q = process as usize;
    let mut lent = Area {
        words: area,
        layout,
    };
    // A match, and no table: document 01 has readers below N, the writer at N, and nobody above.
    match q.cmp(&layout.n) {
        Ordering::Less => reading::reader_step(&mut lent, q),
        Ordering::Equal => writing::writer_step(&mut lent),
        Ordering::Greater => Err(Refusal::NoProcess),
    }
}
