#![tactic(auto)]
// The area of document 01: where each word stands, worked out in one place, and lent words with their layout.
ghost use Rattle.std.specs.Prelude.{◌≡◌, ◌+◌, ◌≤◌, ◌<◌};
ghost use Rattle.theory.specs.Table.{total};
ghost use Rattle.register.specs.Shape.{shape, table};
ghost use Rattle.area.specs.Words.{its_shape, layout_of, Laid, slot_word, desk_word, writer_word};

pub mod fields;
pub mod header;
pub mod lent;
pub mod phases;
pub mod places;

// The shape of an area, for n readers and records of at most c words, and all that depends on it: the limit of
// r_start, r_end and the counters; where its parts begin; the words of a reader's desk, and where the record that it
// keeps begins in it; the words of all.
#[derive(Clone, Copy, Debug, PartialEq, Eq)]
pub struct Layout {
    pub form: u64,
    pub n: usize,
    pub c: usize,
    pub limit: u64,
    pub slots: usize,
    pub desks: usize,
    pub desk: usize,
    pub kept: usize,
    pub writer: usize,
    pub total: usize,
}

impl Layout {
    // Sizes and places of words stay associated constants: document 01 asks for that form.

    // Words in the header, and the places of its words.
    pub const HEADER: usize = 8;

    pub const FORM: usize = 0;

    pub const READERS: usize = 1;

    pub const CAPACITY: usize = 2;

    pub const TOTAL: usize = 3;

    pub const SLOTS_AT: usize = 4;

    pub const DESKS_AT: usize = 5;

    pub const WRITER_AT: usize = 6;

    pub const CURRENT: usize = 7;

    // Words of a slot before its contents, and their places.
    pub const SLOT: usize = 4;

    pub const R_START: usize = 0;

    pub const R_END: usize = 1;

    pub const SIZE: usize = 2;

    pub const NUMBER: usize = 3;

    // Words of a reader's desk before its record, and their places.
    pub const DESK: usize = 6;

    pub const PHASE: usize = 0;

    pub const LAST: usize = 1;

    pub const POS: usize = 2;

    pub const LEN: usize = 3;

    pub const DESK_NUMBER: usize = 4;

    pub const FINISHED: usize = 5;

    // Words of the writer's desk before its record, and their places.
    pub const WRITER: usize = 7;

    pub const WRITER_PHASE: usize = 0;

    pub const LAST_SLOT: usize = 1;

    pub const IN_HAND: usize = 2;

    pub const WRITER_POS: usize = 3;

    pub const WRITER_LEN: usize = 4;

    pub const OLD_WORD: usize = 5;

    pub const WRITES_ENDED: usize = 6;

    // The layout of a form for n readers and records of at most c words.
    pub fn new(form: u64, n: usize, c: usize) -> Self
        requires { (n ≤ 64) × (c ≤ 256) }
        ensures { result ≡ layout_of (shape form n c) }
    {
        let desks = Layout::HEADER + (n + 2) * (Layout::SLOT + c);
        let desk = Layout::DESK + c;
        let writer = desks + n * desk;
        Layout {
            form,
            n,
            c,
            limit: n as u64,
            slots: Layout::HEADER,
            desks,
            desk,
            kept: Layout::DESK,
            writer,
            total: writer + (Layout::WRITER + c),
        }
    }

    // `Laid` stays a clause: the definition `layout_of`, by which contracts name layouts, gives one for every shape.

    // Where word f of slot s stands.
    pub fn slot_word(self, s: usize, f: usize) -> usize
        requires { Laid self × (s < self.n + 2) × (f < 4 + self.c) }
        ensures { (result ≡ slot_word (its_shape self) s f) × (result < total (table (its_shape self))) }
    {
        self.slots + (s * (Layout::SLOT + self.c) + f)
    }

    // Where word f of the desk of reader r stands.
    pub fn desk_word(self, r: usize, f: usize) -> usize
        requires { Laid self × (r < self.n) × (f < self.desk) }
        ensures { (result ≡ desk_word (its_shape self) r f) × (result < total (table (its_shape self))) }
    {
        self.desks + (r * self.desk + f)
    }

    // Where word f of the writer's desk stands.
    pub fn writer_word(self, f: usize) -> usize
        requires { Laid self × (f < 7 + self.c) }
        ensures { (result ≡ writer_word (its_shape self) f) × (result < total (table (its_shape self))) }
    {
        self.writer + f
    }
}
