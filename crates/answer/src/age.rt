// The age of a read that ends: how many later writes have been published.
ghost use Rattle.std.specs.Prelude.{◌≡◌, ◌<◌};
ghost use Rattle.register.specs.Calls.{published_writes, age_of};
ghost use Rattle.area.specs.Lent.{memory_seen};
ghost use Rattle.answer.specs.Carried.{SumFits};

use area::Layout;
use area::lent::View;
use area::phases::WriterPhase;
use area::places::Place;

// Writes published less the read's write number, not below 0. `SumFits` stays a clause: between two stores of a step an
// area need not have it.
pub fn age_of(view: &View<'_>, r: usize) -> u64
    requires { (r < view.now.layout.n) × SumFits (memory_seen view.now) }
    ensures { result ≡ age_of (memory_seen view.now) r }
{
    let newest = published_writes(view);
    let number = view.get(Place::DeskField(Layout::DESK_NUMBER, r));
    newest.saturating_sub(number)
}

// The writes published by now: writes ended, plus 1 if the writer is in phase 7.
fn published_writes(view: &View<'_>) -> u64
    requires { SumFits (memory_seen view.now) }
    ensures { result ≡ published_writes (memory_seen view.now) }
{
    let ended = view.get(Place::WriterField(Layout::WRITES_ENDED));
    let phase = view.get(Place::WriterField(Layout::WRITER_PHASE));
    // One phase alone matters, so its number is compared.
    if phase == WriterPhase::Freezes as u64 {
        ended + 1
    } else {
        ended
    }
}
