// Making a fresh area (I1).
ghost use Rattle.std.specs.Prelude.{◌≡◌};
ghost use Rattle.register.specs.Shape.{shape};
ghost use Rattle.register.specs.Calls.{made};
ghost use Rattle.answer.specs.Carried.{whole};

use answer::Answer;
use area::lent::Area;

// Makes a fresh area of the words, for n readers, records of at most c words and a starting record.
pub fn make(form: u64, n: u64, c: u64, record: &[u64], area: &mut [u64]) -> Answer
    ensures { whole result area.new
        ≡ made (shape form n c) «record».now area.old }
{
    let layout = fresh::tested(form, n, c, area.len(), record.len())?;
    let mut lent = Area {
        words: area,
        layout,
    };
    fresh::fill(&mut lent, record);
    Ok(None)
}
