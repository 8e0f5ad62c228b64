#![tactic(auto)]
// The lines that the bench prints, each put behind the text that is there.
ghost use Rattle.std.specs.Prelude.{map, ◌≡◌};
ghost use Rattle.register.specs.Area.{current, memory};
ghost use Rattle.runfile.specs.Code.{as_written};
ghost use Rattle.text.specs.Lines.{decimal, line};
ghost use Rattle.text.specs.Sheet.{Puts};
ghost use Rattle.tally.specs.Tally.{as_tally};
ghost use Rattle.lines.specs.OneLine.{letter as one_line_letter};
ghost use Rattle.lines.specs.OneLine.{answer_line, first_line, last_line, refused_text};
ghost use Rattle.lines.specs.Code.{answered, as_answered};

use answer::refusals::Refusal;
use answer::{Answer, told};
use area::Layout;
use board::showing;
use runfile::file;
use runfile::kind::Kind;
use runfile::types::Written;
use tally::Tally;
use text::Sheet;

// What a move was answered, as its line tells it. Any number, flag and age are printed, also those of no `Answer`.
#[derive(Clone, Copy, Debug, PartialEq, Eq)]
pub struct Answered {
    pub number: u64,
    pub ended: bool,
    pub age: u64,
}

impl From<Answer> for Answered {
    ghost from_gives = { λ x r. r ≡ as_answered x };

    fn from(answer: Answer) -> Self {
        Answered {
            number: told::number(answer),
            ended: told::ended(answer),
            age: told::age(answer),
        }
    }
}

// B for a begin, S for a step, ? for another kind.
fn letter(kind: u64) -> u8
    ensures { result ≡ one_line_letter kind }
{
    match Kind::try_from(kind) {
        Ok(Kind::Begin) => b'B',
        Ok(Kind::Step) => b'S',
        Err(_) => b'?',
    }
}

// The line of move i of a run with n readers: as it was written, what it was answered, and the area as it left it.
pub fn put_move(sheet: &mut Sheet, n: u64, i: u32, w: Written, x: Answered, area: &[u64])
    ensures { Puts sheet.old sheet.new
        (answer_line n i (as_written w) (answered x area.now)) }
{
    sheet.put_number(u64::from(i));
    sheet.put_field(w.process);
    sheet.put_all(&[b' ', letter(w.kind)]);
    sheet.put_fields(&[x.number, u64::from(x.ended)]);
    if x.ended && w.process < n {
        sheet.put_field(x.age);
        sheet.put_fields(showing::show_one(area, w.process, &[]));
    }
    sheet.put(b'\n');
}

// The first line of a run.
pub fn put_first(sheet: &mut Sheet, file: &[u8])
    ensures { Puts sheet.old sheet.new (first_line file.now) }
{
    let h = file::header(file);
    put_line(
        sheet,
        b"run",
        &[u64::from(h.n), u64::from(h.c), u64::from(h.moves)],
    );
}

// The last line of a run.
pub fn put_last(sheet: &mut Sheet, area: &[u64], t: Tally)
    ensures { Puts sheet.old sheet.new (last_line area.now (as_tally t)) }
{
    put_line(
        sheet,
        b"end",
        &[current_word(area), t.accepted, t.refusals, t.greatest],
    );
}

// The current word.
fn current_word(area: &[u64]) -> u64
    ensures { result ≡ memory area.now current }
{
    area.get(Layout::CURRENT).copied().unwrap_or(0)
}

// The one line of a file that is no run file.
pub fn put_refused(sheet: &mut Sheet)
    ensures { Puts sheet.old sheet.new refused_text }
{
    put_line(sheet, b"refused", &[u64::from(Refusal::NoRunFile)]);
}

// A word, numbers behind it in decimal, and a newline.
fn put_line(sheet: &mut Sheet, word: &[u8], numbers: &[u64])
    ensures { Puts sheet.old sheet.new (line word.now (map decimal numbers.now)) }
{
    sheet.put_all(word);
    sheet.put_fields(numbers);
    sheet.put(b'\n');
}
