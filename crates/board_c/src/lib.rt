#![tactic(auto)]
// The calls of the board for C and Rust. Each takes any words, any process and any record, and asks nothing of its
// caller but memory that is its own. Each is equal to a definition: making, the begins and a step to those of
// `register`, as the calls of `board` are, `board_show` to one of `place`, and `board_words` to one of this crate.
ghost use Rattle.std.specs.Prelude.{◌≡◌};
ghost use Rattle.register.specs.Shape.{shape};
ghost use Rattle.register.specs.Calls.{made, read_begun, write_begun, stepped};
ghost use Rattle.place.specs.Places.{place_of};
ghost use Rattle.board_c.specs.Answers.{as_answer, in_c};
ghost use Rattle.board_c.specs.Sizes.{words_of};

use answer::{Answer, told};
use area::header;
use board::{making, reads, steps, writes};
use place::RecordPlace;

// What a call returns to C, which has no Result: its number, 1 if an operation ended or else 0, and the age.
#[repr(C)]
#[derive(Clone, Copy, Debug, PartialEq, Eq)]
pub struct BoardAnswer {
    pub number: u64,
    pub ended: u64,
    pub age: u64,
}

// An answer of the board as C has it.
impl From<Answer> for BoardAnswer {
    ghost from_gives = { λ x r. r ≡ as_answer x };

    fn from(answer: Answer) -> Self {
        BoardAnswer {
            number: told::number(answer),
            ended: u64::from(told::ended(answer)),
            age: told::age(answer),
        }
    }
}

// Makes a fresh area of the words, for n readers, records of at most c words and a starting record.
#[unsafe(no_mangle)]
pub extern "C" fn board_make(
    area: &mut [u64],
    form: u64,
    n: u64,
    c: u64,
    record: &[u64],
) -> BoardAnswer
    ensures { (result, area.new)
        ≡ in_c (made (shape form n c) «record».now area.old) }
{
    making::make(form, n, c, record, area).into()
}

// A reader begins a read.
#[unsafe(no_mangle)]
pub extern "C" fn board_begin_read(area: &mut [u64], reader: u64) -> BoardAnswer
    ensures { (result, area.new) ≡ in_c (read_begun area.old reader) }
{
    reads::begin_read(area, reader).into()
}

// The writer begins a write of a record.
#[unsafe(no_mangle)]
pub extern "C" fn board_begin_write(area: &mut [u64], record: &[u64]) -> BoardAnswer
    ensures { (result, area.new)
        ≡ in_c (write_begun area.old «record».now) }
{
    writes::begin_write(area, record).into()
}

// One step of a process: a reader below N, the writer at N.
#[unsafe(no_mangle)]
pub extern "C" fn board_step(area: &mut [u64], process: u64) -> BoardAnswer
    ensures { (result, area.new) ≡ in_c (stepped area.old process) }
{
    steps::step(area, process).into()
}

// Where the reader's record stands in the area, if there is one to show.
#[unsafe(no_mangle)]
pub extern "C" fn board_show(area: &[u64], reader: u64) -> RecordPlace
    ensures { result ≡ place_of area.now reader }
{
    place::place_of(area, reader)
}

// The words of an area for n readers and records of at most c words, and 0 where making answers 9.
#[tactic(auto, unfolding(area::specs::Words::laid, crate::specs::Sizes::words_of))]
#[unsafe(no_mangle)]
pub extern "C" fn board_words(form: u64, n: u64, c: u64) -> u64
    ensures { result ≡ words_of (shape form n c) }
{
    header::laid(form, n, c).map_or(0, |p| p.total as u64)
}
