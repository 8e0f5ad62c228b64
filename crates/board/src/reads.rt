// The begin of a read. It tests the area before anything else, and takes any words and any reader.
ghost use Rattle.std.specs.Prelude.{◌≡◌};
ghost use Rattle.register.specs.Calls.{read_begun};
ghost use Rattle.answer.specs.Carried.{whole};

use answer::Answer;
use area::lent::Area;

// A reader begins a read.
pub fn begin_read(area: &mut [u64], reader: u64) -> Answer
    ensures { whole result area.new ≡ read_begun area.old reader }
{
    let layout = testing::tested(area)?;
    let mut lent = Area {
        words: area,
        layout,
    };
    reading::read_begins(&mut lent, reader as usize)
}
