// Test 2: whether an area is undamaged, from the front, a function for each part. Phases stay numbers here: the test is
// of any number, and its parts are joined without a branch.
ghost use Rattle.std.specs.Prelude.{◌≡◌, ◌+◌, ◌<◌};
ghost use Rattle.theory.specs.Lists.{all, every};
ghost use Rattle.register.specs.Area.{memory_tests};
ghost use Rattle.register.specs.Area.{word_sound, slot_sound, desk_sound, writer_sound};
ghost use Rattle.area.specs.Lent.{shape_seen, memory_seen};

use area::lent::View;
use area::phases::{ReaderPhase, WriterPhase};
use area::places::Place;
use area::{Layout, fields};

// Whether the current word, or the old word, names a slot and counts no more than the limit.
fn word_sound(view: &View<'_>, word: u64) -> bool
    ensures { result ≡ word_sound (shape_seen view.now) word }
{
    let slots = view.layout.n as u64 + 2;
    (fields::index(word) < slots) & (fields::counter(word) <= view.layout.limit)
}

// Whether slot s is undamaged.
#[tactic(auto, unfolding(register::specs::Area::slot_sound))]
fn slot_sound(view: &View<'_>, s: usize) -> bool
    requires { s < view.now.layout.n + 2 }
    ensures { result ≡ slot_sound (shape_seen view.now) (memory_seen view.now) s }
{
    let limit = view.layout.limit;
    let words = view.layout.c as u64;
    let r_start = view.get(Place::SlotField(Layout::R_START, s));
    let r_end = view.get(Place::SlotField(Layout::R_END, s));
    let size = view.get(Place::SlotField(Layout::SIZE, s));
    (r_start <= limit) & (r_end <= limit) & (size <= words)
}

// Whether every slot is undamaged.
fn slots_sound(view: &View<'_>) -> bool
    ensures { result ≡ every (view.now.layout.n + 2) 0 (slot_sound (shape_seen view.now) (memory_seen view.now)) }
{
    let slots = view.layout.n + 2;
    (0..slots).all(|s| slot_sound(view, s))
}

// Whether the desk of reader r is undamaged.
#[tactic(auto, unfolding(register::specs::Area::desk_sound))]
fn desk_sound(view: &View<'_>, r: usize) -> bool
    requires { r < view.now.layout.n }
    ensures { result ≡ desk_sound (shape_seen view.now) (memory_seen view.now) r }
{
    let slots = view.layout.n as u64 + 2;
    let words = view.layout.c as u64;
    let phase = view.get(Place::DeskField(Layout::PHASE, r));
    let last = view.get(Place::DeskField(Layout::LAST, r));
    let pos = view.get(Place::DeskField(Layout::POS, r));
    let len = view.get(Place::DeskField(Layout::LEN, r));
    let finished = view.get(Place::DeskField(Layout::FINISHED, r));
    let known = phase <= ReaderPhase::Copies as u64;
    let copying = (phase != ReaderPhase::Copies as u64) | (pos < len);
    known & (last < slots) & (pos <= len) & (len <= words) & (finished <= 1) & copying
}

// Whether every reader's desk is undamaged.
fn desks_sound(view: &View<'_>) -> bool
    ensures { result ≡ every view.now.layout.n 0 (desk_sound (shape_seen view.now) (memory_seen view.now)) }
{
    let desks = view.layout.n;
    (0..desks).all(|r| desk_sound(view, r))
}

// Whether the writer's desk is undamaged.
#[tactic(auto, unfolding(register::specs::Area::writer_sound))]
fn writer_sound(view: &View<'_>) -> bool
    ensures { result ≡ writer_sound (shape_seen view.now) (memory_seen view.now) }
{
    let slots = view.layout.n as u64 + 2;
    let words = view.layout.c as u64;
    let phase = view.get(Place::WriterField(Layout::WRITER_PHASE));
    let last_slot = view.get(Place::WriterField(Layout::LAST_SLOT));
    let in_hand = view.get(Place::WriterField(Layout::IN_HAND));
    let pos = view.get(Place::WriterField(Layout::WRITER_POS));
    let len = view.get(Place::WriterField(Layout::WRITER_LEN));
    let old = word_sound(view, view.get(Place::WriterField(Layout::OLD_WORD)));
    let ended = view.get(Place::WriterField(Layout::WRITES_ENDED));
    let known = phase <= WriterPhase::Freezes as u64;
    let copying = (phase != WriterPhase::Fills as u64) | (pos < len);
    let looking = (phase != WriterPhase::Looks as u64) | (pos == 0);
    let room = (phase == WriterPhase::Idle as u64) | (ended < fields::MOST_WRITES);
    let indexes = known & (last_slot < slots) & (in_hand < slots);
    indexes & (pos <= len) & (len <= words) & old & copying & looking & room
}

// Whether an area is undamaged.
pub fn undamaged(view: &View<'_>) -> bool
    ensures { result ≡ all (memory_tests (shape_seen view.now) (memory_seen view.now)) }
{
    word_sound(view, view.get(Place::Current))
        && slots_sound(view)
        && desks_sound(view)
        && writer_sound(view)
}
