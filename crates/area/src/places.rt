// The places of an area by their names in the definitions, and the word that each is.
ghost use Rattle.std.specs.Prelude.{◌≡◌, ◌<◌};
ghost use Rattle.theory.specs.Table.{address, total};
ghost use Rattle.register.specs.Shape.{table};
ghost use Rattle.area.specs.Words.{its_shape, Laid};
ghost use Rattle.area.specs.Places.{as_place, place_in, Within};

use crate::Layout;

// A place that a step reads or stores to, with its numbers in the order of the definitions (`slot_field f s`).
#[derive(Clone, Copy, Debug, PartialEq, Eq)]
pub enum Place {
    // The current word.
    Current,
    // Field f of slot s.
    SlotField(usize, usize),
    // Word j of the contents of slot s.
    Contents(usize, usize),
    // Field f of the desk of reader r.
    DeskField(usize, usize),
    // Word j of the record of reader r.
    ReadRecord(usize, usize),
    // Field f of the writer's desk.
    WriterField(usize),
    // Word j of the writer's record.
    WriteRecord(usize),
}

// A row of places into which a whole record goes.
#[derive(Clone, Copy, Debug, PartialEq, Eq)]
pub enum Row {
    // The contents of slot s.
    Contents(usize),
    // The writer's record.
    WriteRecord,
}

impl Row {
    // Place j of the row.
    #[inline(always)]
    pub fn place(self, j: usize) -> Place
        ensures { result ≡ place_in self j }
    {
        match self {
            Row::Contents(s) => Place::Contents(s, j),
            Row::WriteRecord => Place::WriteRecord(j),
        }
    }
}

impl Layout {
    // The word that a place is. `Laid` stays a clause, as of `slot_word`; `Within` is the bound of an index, and says
    // of a place what only an area can.
    #[inline(always)]
    pub fn word_of(self, place: Place) -> usize
        requires { Laid self × Within self place }
        ensures is { result ≡ address (table (its_shape self)) (as_place place) }
        ensures within { result < total (table (its_shape self)) }
    {
        match place {
            Place::Current => Layout::CURRENT,
            Place::SlotField(f, s) => self.slot_word(s, f),
            Place::Contents(s, j) => self.slot_word(s, Layout::SLOT + j),
            Place::DeskField(f, r) => self.desk_word(r, f),
            Place::ReadRecord(r, j) => self.desk_word(r, self.kept + j),
            Place::WriterField(f) => self.writer_word(f),
            Place::WriteRecord(j) => self.writer_word(Layout::WRITER + j),
        }
    }
}
