#![tactic(auto)]
// Steps 4 to 7 of the writer: it clears the counters of the slot in hand, publishes it, and freezes the old slot's.
// `Ready` and `Same` stay clauses, for the reasons beside `area::lent::Area`.
ghost use Rattle.std.specs.Prelude.{◌≡◌, ◌≢◌, ◌<◌, true, false, ◌∷◌, []};
ghost use Rattle.theory.specs.Place.{◌≔◌};
ghost use Rattle.register.specs.Area.{slot_field, in_hand, writer_phase};
ghost use Rattle.register.specs.Steps.{accept, clears_start, clears_end, publishes, freezes};
ghost use Rattle.area.specs.Phases.{writer_number};
ghost use Rattle.area.specs.Lent.{memory_at, Same};
ghost use Rattle.answer.specs.Carried.{whole, Ready, carried_at};

use answer::Answer;
use area::lent::Area;
use area::phases::WriterPhase;
use area::places::Place;
use area::{Layout, fields};

// Step 4: r_start of the slot in hand becomes 0.
pub fn clears_start(area: &mut Area<'_>) -> Answer
    requires { Ready area.old }
    ensures answer { whole result area.new.words.now
        ≡ carried_at area.old.layout.n area.old (accept (clears_start (memory_at area.old)) false) }
    ensures same { Same area.old area.new }
{
    clears(area, Layout::R_START, WriterPhase::ClearsEnd)
}

// Step 5: r_end of the slot in hand becomes 0.
pub fn clears_end(area: &mut Area<'_>) -> Answer
    requires { Ready area.old }
    ensures answer { whole result area.new.words.now
        ≡ carried_at area.old.layout.n area.old (accept (clears_end (memory_at area.old)) false) }
    ensures same { Same area.old area.new }
{
    clears(area, Layout::R_END, WriterPhase::Publishes)
}

// A counter of the slot in hand becomes 0, and the writer's phase the next.
#[tactic(auto, unfolding(answer::specs::Carried::carried))]
fn clears(area: &mut Area<'_>, counter: usize, next: WriterPhase) -> Answer
    requires { Ready area.old × (counter < 2) }
    ensures answer { whole result area.new.words.now ≡ carried_at area.old.layout.n area.old
        (accept (slot_field counter (memory_at area.old in_hand) ≔ 0
        ∷ writer_phase ≔ writer_number next ∷ []) false) }
    ensures same { Same area.old area.new }
{
    let hand = area.get(Place::WriterField(Layout::IN_HAND)) as usize;
    area.set(Place::SlotField(counter, hand), 0);
    area.set(Place::WriterField(Layout::WRITER_PHASE), next as u64);
    Ok(None)
}

// Step 6 (W2): the current word becomes the old word, and the slot in hand the current one.
#[tactic(auto, unfolding(answer::specs::Carried::carried))]
pub fn publishes(area: &mut Area<'_>) -> Answer
    requires { Ready area.old }
    ensures answer { whole result area.new.words.now
        ≡ carried_at area.old.layout.n area.old (accept (publishes (memory_at area.old)) false) }
    ensures same { Same area.old area.new }
{
    let hand = area.get(Place::WriterField(Layout::IN_HAND));
    let current = area.get(Place::Current);
    area.set(Place::WriterField(Layout::OLD_WORD), current);
    area.set(Place::Current, hand * fields::INDEX_UNIT);
    area.set(
        Place::WriterField(Layout::WRITER_PHASE),
        WriterPhase::Freezes as u64,
    );
    Ok(None)
}

// Step 7 (W3): r_start of the old slot becomes the old word's counter, and the write ends.
#[tactic(auto, unfolding(answer::specs::Carried::carried))]
pub fn freezes(area: &mut Area<'_>) -> Answer
    requires { Ready area.old × (memory_at area.old writer_phase ≢ 0) }
    ensures answer { whole result area.new.words.now
        ≡ carried_at area.old.layout.n area.old (accept (freezes (memory_at area.old)) true) }
    ensures same { Same area.old area.new }
{
    let hand = area.get(Place::WriterField(Layout::IN_HAND));
    let old = area.get(Place::WriterField(Layout::OLD_WORD));
    let ended = area.get(Place::WriterField(Layout::WRITES_ENDED));
    let slot = fields::index(old) as usize;
    area.set(
        Place::SlotField(Layout::R_START, slot),
        fields::counter(old),
    );
    area.set(Place::WriterField(Layout::LAST_SLOT), hand);
    area.set(Place::WriterField(Layout::WRITES_ENDED), ended + 1);
    area.set(
        Place::WriterField(Layout::WRITER_PHASE),
        WriterPhase::Idle as u64,
    );
    Ok(Some(0))
}
