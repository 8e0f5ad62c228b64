#![tactic(auto)]
// The place of a reader's record in any words: what the calls that show a record stand on.
ghost use Rattle.std.specs.Prelude.{◌≡◌};
ghost use Rattle.theory.specs.Lists.{all};
ghost use Rattle.area.specs.Lent.{memory_seen};
ghost use Rattle.place.specs.Places.{rest_tests, record_range, told, place_of};

use area::Layout;
use area::lent::View;
use area::phases::ReaderPhase;
use area::places::Place;
use std::ops::Range;

// Where a reader's record stands, for C, which has no Option: yes is 1, and it is the len words of the area from at on;
// or all three are 0.
#[repr(C)]
#[derive(Clone, Copy, Debug, PartialEq, Eq)]
pub struct RecordPlace {
    pub yes: u64,
    pub at: u64,
    pub len: u64,
}

impl From<Option<Range<usize>>> for RecordPlace {
    ghost from_gives = { λ range place. place ≡ told range };

    fn from(range: Option<Range<usize>>) -> RecordPlace {
        match range {
            Some(words) => RecordPlace {
                yes: 1,
                at: words.start as u64,
                len: words.len() as u64,
            },
            None => RecordPlace {
                yes: 0,
                at: 0,
                len: 0,
            },
        }
    }
}

// Whether the reader exists, is idle and has finished.
fn rests(view: &View<'_>, reader: u64) -> bool
    ensures { result ≡ all (rest_tests view.now.layout.n (memory_seen view.now) reader) }
{
    if view.layout.n as u64 <= reader {
        return false;
    }
    let r = reader as usize;
    let phase = view.get(Place::DeskField(Layout::PHASE, r));
    let finished = view.get(Place::DeskField(Layout::FINISHED, r));
    // One phase alone matters, so its number is compared.
    (phase == ReaderPhase::Idle as u64) & (finished == 1)
}

// The words of the area that are a reader's record, if there is one to show.
pub fn record_range(area: &[u64], reader: u64) -> Option<Range<usize>>
    ensures { result ≡ record_range area.now reader }
{
    let layout = testing::tested(area).ok()?;
    let view = View {
        words: area,
        layout,
    };
    if !rests(&view, reader) {
        return None;
    }
    let r = reader as usize;
    let start = layout.desk_word(r, layout.kept);
    let len = view.get(Place::DeskField(Layout::LEN, r)) as usize;
    Some(start..start + len)
}

// The place of a reader's record, if there is one to show.
#[tactic(auto, using(crate::proofs::Placed::told_is))]
pub fn place_of(area: &[u64], reader: u64) -> RecordPlace
    ensures { result ≡ place_of area.now reader }
{
    record_range(area, reader).into()
}
