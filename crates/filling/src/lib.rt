#![tactic(auto)]
// Steps 1 to 3 of the writer: it looks for a free slot, and fills it with the record, its write number and its size.
// `Ready` and `Same` stay clauses, for the reasons beside `area::lent::Area`.
ghost use Rattle.std.specs.Prelude.{◌≡◌, ◌≢◌, false};
ghost use Rattle.register.specs.Area.{writer_phase};
ghost use Rattle.register.specs.Steps.{accept, free, looks, fills, sizes};
ghost use Rattle.area.specs.Lent.{shape_at, memory_at, Same};
ghost use Rattle.answer.specs.Carried.{whole, Ready, carried_at};

use answer::Answer;
use answer::refusals::Refusal;
use area::Layout;
use area::lent::Area;
use area::phases::WriterPhase;
use area::places::Place;

// Step 1 (W1): a free slot in hand is picked, another is passed; there is none past the last.
#[tactic(auto, unfolding(answer::specs::Carried::carried))]
pub fn looks(area: &mut Area<'_>) -> Answer
    requires { Ready area.old }
    ensures answer { whole result area.new.words.now
        ≡ carried_at area.old.layout.n area.old (looks (shape_at area.old) (memory_at area.old)) }
    ensures same { Same area.old area.new }
{
    let hand = area.get(Place::WriterField(Layout::IN_HAND));
    let len = area.get(Place::WriterField(Layout::WRITER_LEN));
    if free(area) {
        let phase = if len == 0 {
            WriterPhase::Sizes
        } else {
            WriterPhase::Fills
        };
        area.set(Place::WriterField(Layout::WRITER_PHASE), phase as u64);
        return Ok(None);
    }
    if hand == area.layout.n as u64 + 1 {
        return Err(Refusal::NoneFree);
    }
    area.set(Place::WriterField(Layout::IN_HAND), hand + 1);
    Ok(None)
}

// Whether the slot in hand is free.
fn free(area: &Area<'_>) -> bool
    requires { Ready area.now }
    ensures { result ≡ free (memory_at area.now) }
{
    let hand = area.get(Place::WriterField(Layout::IN_HAND));
    let last = area.get(Place::WriterField(Layout::LAST_SLOT));
    let started = area.get(Place::SlotField(Layout::R_START, hand as usize));
    let gone = area.get(Place::SlotField(Layout::R_END, hand as usize));
    hand != last && started == gone
}

// Step 2: the word at pos is copied from the desk to the slot in hand.
#[tactic(auto, unfolding(answer::specs::Carried::carried))]
pub fn fills(area: &mut Area<'_>) -> Answer
    requires { Ready area.old × (memory_at area.old writer_phase ≡ 2) }
    ensures answer { whole result area.new.words.now
        ≡ carried_at area.old.layout.n area.old (accept (fills (memory_at area.old)) false) }
    ensures same { Same area.old area.new }
{
    let hand = area.get(Place::WriterField(Layout::IN_HAND)) as usize;
    let pos = area.get(Place::WriterField(Layout::WRITER_POS));
    let len = area.get(Place::WriterField(Layout::WRITER_LEN));
    let word = area.get(Place::WriteRecord(pos as usize));
    let next = pos + 1;
    let phase = if next == len {
        WriterPhase::Sizes
    } else {
        WriterPhase::Fills
    };
    area.set(Place::Contents(hand, pos as usize), word);
    area.set(Place::WriterField(Layout::WRITER_POS), next);
    area.set(Place::WriterField(Layout::WRITER_PHASE), phase as u64);
    Ok(None)
}

// Step 3: the slot in hand gets its write number and its size.
#[tactic(auto, unfolding(answer::specs::Carried::carried))]
pub fn sizes(area: &mut Area<'_>) -> Answer
    requires { Ready area.old × (memory_at area.old writer_phase ≢ 0) }
    ensures answer { whole result area.new.words.now
        ≡ carried_at area.old.layout.n area.old (accept (sizes (memory_at area.old)) false) }
    ensures same { Same area.old area.new }
{
    let hand = area.get(Place::WriterField(Layout::IN_HAND)) as usize;
    let len = area.get(Place::WriterField(Layout::WRITER_LEN));
    let ended = area.get(Place::WriterField(Layout::WRITES_ENDED));
    area.set(Place::SlotField(Layout::NUMBER, hand), ended + 1);
    area.set(Place::SlotField(Layout::SIZE, hand), len);
    area.set(
        Place::WriterField(Layout::WRITER_PHASE),
        WriterPhase::ClearsStart as u64,
    );
    Ok(None)
}
