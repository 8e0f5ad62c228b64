#![tactic(auto)]
// What making takes, and the words of a fresh area (I1): all 0, and then the header and the starting record.
ghost use Rattle.std.specs.Prelude.{◌≡◌, ◌≤◌, length, replicate};
ghost use Rattle.register.specs.Shape.{shape};
ghost use Rattle.register.specs.Calls.{fresh};
ghost use Rattle.area.specs.Lent.{shape_at, Same, After};
ghost use Rattle.fresh.specs.Making.{making_result, numbers, offsets, starting};

use answer::refusals::Refusal;
use area::lent::Area;
use area::places::{Place, Row};
use area::{Layout, header};

// The test that making begins with, of a slice and a record by their lengths: the layout of what is made, or why it is
// refused.
#[tactic(auto, unfolding(crate::specs::Making::making_result, area::specs::Words::laid))]
pub fn tested(form: u64, n: u64, c: u64, words: usize, length: usize) -> Result<Layout, Refusal>
    ensures { result ≡ making_result (shape form n c) words length }
{
    let p = header::laid(form, n, c).ok_or(Refusal::OutOfRange)?;
    if words != p.total {
        return Err(Refusal::AnotherLength);
    }
    if p.c < length {
        return Err(Refusal::TooLong);
    }
    Ok(p)
}

// Every word becomes 0.
fn clear(area: &mut Area<'_>)
    ensures words { area.new.words.now ≡ replicate (length area.old.words.now) 0 }
    ensures same { Same area.old area.new }
{
    area.words.fill(0);
}

// Words 0 to 3 of the header.
fn set_numbers(area: &mut Area<'_>)
    ensures { After area.old (numbers (shape_at area.old)) area.new }
{
    let p = area.layout;
    area.words[Layout::FORM] = p.form;
    area.words[Layout::READERS] = p.n as u64;
    area.words[Layout::CAPACITY] = p.c as u64;
    area.words[Layout::TOTAL] = p.total as u64;
}

// Words 4 to 7 of the header. The current word counts every reader in slot 0.
fn set_offsets(area: &mut Area<'_>)
    ensures { After area.old (offsets (shape_at area.old)) area.new }
{
    let p = area.layout;
    area.words[Layout::SLOTS_AT] = p.slots as u64;
    area.words[Layout::DESKS_AT] = p.desks as u64;
    area.words[Layout::WRITER_AT] = p.writer as u64;
    area.words[Layout::CURRENT] = p.n as u64;
}

// The starting record and its size go into slot 0.
fn set_starting(area: &mut Area<'_>, record: &[u64])
    requires { length «record».now ≤ area.old.layout.c }
    ensures { After area.old (starting «record».now) area.new }
{
    area.set(Place::SlotField(Layout::SIZE, 0), record.len() as u64);
    area.copy_in(Row::Contents(0), record);
}

// The words of a fresh area.
pub fn fill(area: &mut Area<'_>, record: &[u64])
    requires { length «record».now ≤ area.old.layout.c }
    ensures words { area.new.words.now ≡ fresh (shape_at area.old) «record».now }
    ensures same { Same area.old area.new }
{
    clear(area);
    set_numbers(area);
    set_offsets(area);
    set_starting(area, record);
}
