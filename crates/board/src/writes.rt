// The begin of a write. It tests the area before anything else, and takes any words and any record.
ghost use Rattle.std.specs.Prelude.{◌≡◌};
ghost use Rattle.register.specs.Calls.{write_begun};
ghost use Rattle.answer.specs.Carried.{whole};

use answer::Answer;
use area::lent::Area;

// The writer begins a write of a record.
pub fn begin_write(area: &mut [u64], words: &[u64]) -> Answer
    ensures { whole result area.new ≡ write_begun area.old words.now }
{
    let layout = testing::tested(area)?;
    let mut lent = Area {
        words: area,
        layout,
    };
    writing::write_begins(&mut lent, words)
}
