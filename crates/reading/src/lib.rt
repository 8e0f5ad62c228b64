#![tactic(auto)]
// A begin of a read, and one step of a reader by its phase.
// `Ready`, the bound of r and `Same` stay clauses, for the reasons beside `area::lent::Area`.
ghost use Rattle.std.specs.Prelude.{◌≡◌, ◌<◌};
ghost use Rattle.register.specs.Steps.{read_begins, reader_step};
ghost use Rattle.area.specs.Lent.{shape_at, memory_at, Same};
ghost use Rattle.answer.specs.Carried.{whole, Ready, carried_at};

use answer::Answer;
use answer::refusals::Refusal;
use area::Layout;
use area::lent::Area;
use area::phases::ReaderPhase;
use area::places::Place;

// A begin of a read: phase 1 and nothing else.
#[tactic(auto, unfolding(answer::specs::Carried::carried))]
pub fn read_begins(area: &mut Area<'_>, r: usize) -> Answer
    requires { Ready area.old }
    ensures answer { whole result area.new.words.now
        ≡ carried_at r area.old (read_begins (shape_at area.old) (memory_at area.old) r) }
    ensures same { Same area.old area.new }
{
    if r >= area.layout.n {
        return Err(Refusal::NoProcess);
    }
    let phase = area.get(Place::DeskField(Layout::PHASE, r));
    // One phase alone matters, so its number is compared.
    if phase != ReaderPhase::Idle as u64 {
        return Err(Refusal::Busy);
    }
    area.set(
        Place::DeskField(Layout::PHASE, r),
        ReaderPhase::Compares as u64,
    );
    Ok(None)
}

// One step of reader r; an undamaged area has no phase past 5.
#[tactic(auto, unfolding(register::specs::Steps::reader_step, answer::specs::Carried::carried))]
pub fn reader_step(area: &mut Area<'_>, r: usize) -> Answer
    requires { Ready area.old × (r < area.old.layout.n) }
    ensures answer { whole result area.new.words.now
        ≡ carried_at r area.old (reader_step (shape_at area.old) (memory_at area.old) r) }
    ensures same { Same area.old area.new }
{
    let phase = area.get(Place::DeskField(Layout::PHASE, r));
    // A match, and no table of closures: these steps are all that document 01 has.
    match ReaderPhase::try_from(phase)? {
        ReaderPhase::Idle => Err(Refusal::Idle),
        ReaderPhase::Compares => binding::compares(area, r),
        ReaderPhase::Unbinds => binding::unbinds(area, r),
        ReaderPhase::Binds => binding::binds(area, r),
        ReaderPhase::Takes => copying::takes(area, r),
        ReaderPhase::Copies => copying::copies(area, r),
    }
}
