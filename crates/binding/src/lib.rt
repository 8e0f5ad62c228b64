#![tactic(auto)]
// Steps 1 to 3 of a reader: it leaves the slot that it is bound to and binds the current one, or stays.
// `Ready`, the bound of r and `Same` stay clauses, for the reasons beside `area::lent::Area`.
ghost use Rattle.std.specs.Prelude.{◌≡◌, ◌<◌};
ghost use Rattle.register.specs.Steps.{reader_1, reader_2, reader_3};
ghost use Rattle.area.specs.Lent.{shape_at, memory_at, Same};
ghost use Rattle.answer.specs.Carried.{whole, Ready, carried_at};

use answer::Answer;
use answer::refusals::Refusal;
use area::lent::Area;
use area::phases::ReaderPhase;
use area::places::Place;
use area::{Layout, fields};

// Step 1 (R1): look at current's index.
#[tactic(auto, unfolding(answer::specs::Carried::carried))]
pub fn compares(area: &mut Area<'_>, r: usize) -> Answer
    requires { Ready area.old × (r < area.old.layout.n) }
    ensures answer { whole result area.new.words.now
        ≡ carried_at r area.old (reader_1 (shape_at area.old) (memory_at area.old) r) }
    ensures same { Same area.old area.new }
{
    let index = fields::index(area.get(Place::Current));
    let last = area.get(Place::DeskField(Layout::LAST, r));
    let phase = if index == last {
        ReaderPhase::Takes
    } else {
        ReaderPhase::Unbinds
    };
    area.set(Place::DeskField(Layout::PHASE, r), phase as u64);
    Ok(None)
}

// Step 2 (R3): add 1 to r_end of slot last.
#[tactic(auto, unfolding(answer::specs::Carried::carried))]
pub fn unbinds(area: &mut Area<'_>, r: usize) -> Answer
    requires { Ready area.old × (r < area.old.layout.n) }
    ensures answer { whole result area.new.words.now
        ≡ carried_at r area.old (reader_2 (shape_at area.old) (memory_at area.old) r) }
    ensures same { Same area.old area.new }
{
    let slot = area.get(Place::DeskField(Layout::LAST, r)) as usize;
    let gone = area.get(Place::SlotField(Layout::R_END, slot));
    if gone >= area.layout.limit {
        return Err(Refusal::Damaged);
    }
    area.set(Place::SlotField(Layout::R_END, slot), gone + 1);
    area.set(
        Place::DeskField(Layout::PHASE, r),
        ReaderPhase::Binds as u64,
    );
    Ok(None)
}

// Step 3 (R4, R5): add 1 to current; last becomes its index.
#[tactic(auto, unfolding(answer::specs::Carried::carried))]
pub fn binds(area: &mut Area<'_>, r: usize) -> Answer
    requires { Ready area.old × (r < area.old.layout.n) }
    ensures answer { whole result area.new.words.now
        ≡ carried_at r area.old (reader_3 (shape_at area.old) (memory_at area.old) r) }
    ensures same { Same area.old area.new }
{
    let current = area.get(Place::Current);
    if fields::counter(current) >= area.layout.limit {
        return Err(Refusal::Damaged);
    }
    let bound = current + 1;
    area.set(Place::Current, bound);
    area.set(Place::DeskField(Layout::LAST, r), fields::index(bound));
    area.set(
        Place::DeskField(Layout::PHASE, r),
        ReaderPhase::Takes as u64,
    );
    Ok(None)
}
