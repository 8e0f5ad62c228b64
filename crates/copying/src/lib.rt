#![tactic(auto)]
// Steps 4 and 5 of a reader: it takes size and write number of the slot that it bound, copies the words, and finishes.
// `Ready`, the bound of r and `Same` stay clauses, for the reasons beside `area::lent::Area`.
ghost use Rattle.std.specs.Prelude.{◌≡◌, true, ◌<◌};
ghost use Rattle.register.specs.Area.{phase};
ghost use Rattle.register.specs.Steps.{accept, finishes, reader_4, reader_5};
ghost use Rattle.area.specs.Lent.{shape_at, memory_at, Same};
ghost use Rattle.answer.specs.Carried.{whole, Ready, SumFits, carried_at};

use answer::{Answer, age};
use area::Layout;
use area::lent::Area;
use area::phases::ReaderPhase;
use area::places::Place;

// Step 4: take size and write number of slot last. A record of no words ends the read.
#[tactic(auto, unfolding(answer::specs::Carried::carried))]
pub fn takes(area: &mut Area<'_>, r: usize) -> Answer
    requires { Ready area.old × (r < area.old.layout.n) }
    ensures answer { whole result area.new.words.now
        ≡ carried_at r area.old (reader_4 (shape_at area.old) (memory_at area.old) r) }
    ensures same { Same area.old area.new }
{
    let slot = area.get(Place::DeskField(Layout::LAST, r)) as usize;
    let size = area.get(Place::SlotField(Layout::SIZE, slot));
    let number = area.get(Place::SlotField(Layout::NUMBER, slot));
    area.set(Place::DeskField(Layout::LEN, r), size);
    area.set(Place::DeskField(Layout::DESK_NUMBER, r), number);
    area.set(Place::DeskField(Layout::POS, r), 0);
    if size == 0 {
        return finishes(area, r);
    }
    area.set(
        Place::DeskField(Layout::PHASE, r),
        ReaderPhase::Copies as u64,
    );
    Ok(None)
}

// Step 5: copy the word at pos from slot last. The last word ends the read.
#[tactic(auto, unfolding(answer::specs::Carried::carried))]
pub fn copies(area: &mut Area<'_>, r: usize) -> Answer
    requires { Ready area.old × (r < area.old.layout.n) × (memory_at area.old (phase r) ≡ 5) }
    ensures answer { whole result area.new.words.now
        ≡ carried_at r area.old (reader_5 (shape_at area.old) (memory_at area.old) r) }
    ensures same { Same area.old area.new }
{
    let slot = area.get(Place::DeskField(Layout::LAST, r)) as usize;
    let pos = area.get(Place::DeskField(Layout::POS, r));
    let len = area.get(Place::DeskField(Layout::LEN, r));
    let word = area.get(Place::Contents(slot, pos as usize));
    let next = pos + 1;
    area.set(Place::ReadRecord(r, pos as usize), word);
    area.set(Place::DeskField(Layout::POS, r), next);
    if next == len {
        return finishes(area, r);
    }
    Ok(None)
}

// The end of a read: finished becomes 1, phase 0. The answer has its age.
fn finishes(area: &mut Area<'_>, r: usize) -> Answer
    requires { (r < area.old.layout.n) × SumFits (memory_at area.old) }
    ensures answer { whole result area.new.words.now ≡ carried_at r area.old (accept (finishes r) true) }
    ensures same { Same area.old area.new }
{
    let age = age::age_of(&area.view(), r);
    area.set(Place::DeskField(Layout::FINISHED, r), 1);
    area.set(Place::DeskField(Layout::PHASE, r), ReaderPhase::Idle as u64);
    Ok(Some(age))
}
