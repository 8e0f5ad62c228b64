#![tactic(auto)]
// A begin of a write, and one step of the writer by its phase.
// `Ready` and `Same` stay clauses, for the reasons beside `area::lent::Area`.
ghost use Rattle.std.specs.Prelude.{◌≡◌};
ghost use Rattle.register.specs.Steps.{sets_out, write_begins, writer_step};
ghost use Rattle.area.specs.Lent.{shape_at, memory_at, Same, After};
ghost use Rattle.answer.specs.Carried.{whole, Ready, carried_at};

use answer::Answer;
use answer::refusals::Refusal;
use area::lent::Area;
use area::phases::WriterPhase;
use area::places::{Place, Row};
use area::{Layout, fields};

// A begin of a write with a record.
#[tactic(auto, unfolding(answer::specs::Carried::carried))]
pub fn write_begins(area: &mut Area<'_>, words: &[u64]) -> Answer
    requires { Ready area.old }
    ensures answer { whole result area.new.words.now
        ≡ carried_at area.old.layout.n area.old
        (write_begins (shape_at area.old) (memory_at area.old) words.now) }
    ensures same { Same area.old area.new }
{
    let phase = area.get(Place::WriterField(Layout::WRITER_PHASE));
    let ended = area.get(Place::WriterField(Layout::WRITES_ENDED));
    if words.len() > area.layout.c {
        return Err(Refusal::TooLong);
    }
    // One phase alone matters, so its number is compared.
    if phase != WriterPhase::Idle as u64 {
        return Err(Refusal::Busy);
    }
    if ended >= fields::MOST_WRITES {
        return Err(Refusal::Full);
    }
    area.copy_in(Row::WriteRecord, words);
    sets_out(area, words);
    Ok(None)
}

// The desk's other words at a begin: len, slot in hand 0, pos 0, phase 1.
fn sets_out(area: &mut Area<'_>, words: &[u64])
    ensures { After area.old (sets_out words.now) area.new }
{
    area.set(Place::WriterField(Layout::WRITER_LEN), words.len() as u64);
    area.set(Place::WriterField(Layout::IN_HAND), 0);
    area.set(Place::WriterField(Layout::WRITER_POS), 0);
    area.set(
        Place::WriterField(Layout::WRITER_PHASE),
        WriterPhase::Looks as u64,
    );
}

// One step of the writer; an undamaged area has a phase.
#[tactic(auto, unfolding(register::specs::Steps::writer_step, answer::specs::Carried::carried))]
pub fn writer_step(area: &mut Area<'_>) -> Answer
    requires { Ready area.old }
    ensures answer { whole result area.new.words.now
        ≡ carried_at area.old.layout.n area.old
        (writer_step (shape_at area.old) (memory_at area.old)) }
    ensures same { Same area.old area.new }
{
    // A match, and no table of closures: these steps are all that document 01 has.
    match WriterPhase::try_from(area.get(Place::WriterField(Layout::WRITER_PHASE)))? {
        WriterPhase::Idle => Err(Refusal::Idle),
        WriterPhase::Looks => filling::looks(area),
        WriterPhase::Fills => filling::fills(area),
        WriterPhase::Sizes => filling::sizes(area),
        WriterPhase::ClearsStart => publishing::clears_start(area),
        WriterPhase::ClearsEnd => publishing::clears_end(area),
        WriterPhase::Publishes => publishing::publishes(area),
        WriterPhase::Freezes => publishing::freezes(area),
    }
}
