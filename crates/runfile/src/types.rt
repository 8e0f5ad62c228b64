// What stands in a run file, by value.
ghost use Rattle.std.specs.Prelude.{List, ◌≡◌, ℕ, length as List·length};
ghost use Rattle.theory.specs.Lists.{all};
ghost use Rattle.runfile.specs.Code.{header_of, size_tests, part_tests};

// The counts and offsets of a header: N, C, the starting length, the moves and where they begin, the values and where
// they begin.
#[derive(Clone, Copy, Debug, PartialEq, Eq)]
pub struct Header {
    pub n: u32,
    pub c: u32,
    pub starting: u32,
    pub moves: u32,
    pub moves_at: u32,
    pub values: u32,
    pub values_at: u32,
}

impl Header {
    // Bytes of a header, and the places of its counts and offsets.
    pub const BYTES: usize = 28;

    pub const READERS: usize = 0;

    pub const CAPACITY: usize = 4;

    pub const STARTING: usize = 8;

    pub const MOVES: usize = 12;

    pub const MOVES_AT: usize = 16;

    pub const VALUES: usize = 20;

    pub const VALUES_AT: usize = 24;

    // Whether N, C and the starting length are in range.
    pub(crate) fn sizes_pass(self) -> bool
        ensures { (b : List ℕ) → self ≡ header_of b → result ≡ all (size_tests b) }
    {
        (1..=8).contains(&self.n) && (1..=32).contains(&self.c) && self.starting <= self.c
    }

    // Whether the moves and the values are few enough, stand where they must and fill a file of this length.
    pub(crate) fn parts_pass(self, length: usize) -> bool
        ensures { (b : List ℕ) → self ≡ header_of b → length ≡ List·length b
            → result ≡ all (part_tests b) }
    {
        let moves = self.moves as usize;
        let values = self.values as usize;
        moves <= 4000
            && self.moves_at as usize == Header::BYTES
            && values <= 1000
            && self.starting <= self.values
            && self.values_at as usize == Header::BYTES + 4 * moves
            && length == Header::BYTES + 4 * moves + 8 * values
    }
}

// A move as its four bytes have it. The kind stays a number: one that no kind has is printed, and refused by 12.
#[derive(Clone, Copy, Debug, PartialEq, Eq)]
pub struct Written {
    pub process: u64,
    pub kind: u64,
    pub len: u64,
}

// A call that a move asks for.
#[derive(Clone, Copy, Debug, PartialEq, Eq)]
pub enum Call {
    // A begin of a write of so many values.
    Values(u64),
    // A begin of a read by this process.
    Read(u64),
    // A step of this process.
    Step(u64),
}
