// The text of a run file's run, put into lent bytes. Any bytes are taken as a file.
ghost use Rattle.std.specs.Prelude.{true, ◌≡◌, ◌≤◌, length, take};
ghost use Rattle.io.specs.Counts.{IsPrefixLen};
ghost use Rattle.theory.specs.Table.{total};
ghost use Rattle.register.specs.Shape.{table};
ghost use Rattle.runfile.specs.RunFile.{readers, is_run_file};
ghost use Rattle.runfile.specs.Code.{as_written};
ghost use Rattle.text.specs.Sheet.{sheet, put, Puts};
ghost use Rattle.answer.specs.Refusals.{answer_number, answer_age};
ghost use Rattle.tally.specs.Tally.{as_tally, counted, Room};
ghost use Rattle.playing.specs.Play.{run_shape};
ghost use Rattle.playing.specs.Code.{as_outcome};
ghost use Rattle.lines.specs.OneLine.{answer_line};
ghost use Rattle.bench.specs.Printed.{run_text, printed};
ghost use Rattle.bench.specs.Sizes.{area_words, text_bytes};
ghost use Rattle.bench.specs.Code.{as_course, course_after, SameLent};

use crate::sizes;
use answer::refusals::Refusal;
use answer::told;
use area::Layout;
use lines::{put_first, put_last, put_refused};
use playing::begins::begin_run;
use playing::moves::play_call;
use playing::types::Played;
use runfile::types::Written;
use runfile::{file, moves};
use tally::Tally;
use text::Sheet;

// Puts the text of these bytes into lent ones, since there is no heap, and returns where it ends. Where as many bytes
// are lent as hold any text it is whole.
pub fn put_text(file: &[u8], out: &mut [u8]) -> usize
    ensures result_after { sheet out.new result
        ≡ put (sheet out.old 0) (printed file.now) }
    ensures prefix_len { IsPrefixLen result out.new }
    ensures out_after { text_bytes ≤ length out.old
        → take result out.new ≡ printed file.now }
{
    let mut sheet = Sheet { bytes: out, end: 0 };
    put_printed(file, &mut sheet);
    sheet.end
}

// The whole text of these bytes, in as many lent bytes as hold any. Every other byte stays.
pub fn whole_text(file: &[u8], out: &mut [u8; sizes::TEXT]) -> usize
    ensures result_after { sheet out.new result
        ≡ put (sheet out.old 0) (printed file.now) }
    ensures out_after { take result out.new ≡ printed file.now }
    ensures prefix_len { IsPrefixLen result out.new }
{
    put_text(file, out)
}

// The text of these bytes: that of the run if they are a run file, and one line if not.
fn put_printed(file: &[u8], sheet: &mut Sheet)
    ensures { Puts sheet.old sheet.new (printed file.now) }
{
    if !file::is_run_file(file) {
        put_refused(sheet);
        return;
    }
    let mut space = [0u64; sizes::AREA];
    put_run_in(file, &mut space, sheet);
}

// The text of a run, on the first words of some that are enough for any run.
fn put_run_in(file: &[u8], space: &mut [u64], sheet: &mut Sheet)
    requires { (is_run_file file.now ≡ true) × (area_words ≤ length space.old) }
    ensures { Puts sheet.old sheet.new (run_text file.now) }
{
    let h = file::header(file);
    let p = Layout::new(1, h.n as usize, h.c as usize);
    put_run(file, &mut space[..p.total], sheet);
}

// The text of a run, on words that are as many as its area has.
fn put_run(file: &[u8], area: &mut [u64], sheet: &mut Sheet)
    requires file_value { is_run_file file.now ≡ true }
    requires area_len { length area.old ≡ total (table (run_shape file.now)) }
    ensures { Puts sheet.old sheet.new (run_text file.now) }
{
    // A run file begins, so that there is no refusal to hand on.
    let _ = begin_run(file, area);
    put_first(sheet, file);
    let h = file::header(file);
    let n = u64::from(h.n);
    let mut run = Run {
        file,
        area,
        sheet,
        used: u64::from(h.starting),
        tally: Tally::default(),
    };
    for i in 0..h.moves {
        run.play(n, i);
    }
    let Run {
        area,
        sheet,
        tally,
        ..
    } = run;
    put_last(sheet, area, tally);
}

// A run under way: its file, the words of its area, its text, how many values are used up, and its tally. The sheet is
// lent: tried as a `Sheet` of the run's own, of which the caller's proof then knows nothing but how many bytes it has.
#[derive(Drop)]
struct Run<'f, 'a, 'o> {
    file: &'f [u8],
    area: &'a mut [u64],
    sheet: &'a mut Sheet<'o>,
    used: u64,
    tally: Tally,
}

impl Run<'_, '_, '_> {
    // Plays move i and puts its line. It is decoded here, once; one that is malformed is refused by 12, printed like
    // any other, and the run goes on.
    fn play(&mut self, n: u64, i: u32)
        requires { (n ≡ readers self.old.file.now) × Room self.old.tally }
        ensures course { as_course self.new ≡ course_after self.old.file.now i (as_course self.old) }
        ensures lent { SameLent self.old self.new }
    {
        let w = moves::written_move(self.file, i);
        let Some(call) = moves::asked(n, w) else {
            let refusal = Played {
                answer: Err(Refusal::Malformed),
                used: self.used,
            };
            self.put_move(n, i, w, refusal);
            return;
        };
        let x = play_call(self.file, call, self.area, self.used);
        self.put_move(n, i, w, x);
    }

    // Puts the line of move i, and counts it.
    fn put_move(&mut self, n: u64, i: u32, w: Written, x: Played)
        requires { Room self.old.tally }
        ensures text { Puts self.old.sheet.now self.new.sheet.now
            (answer_line n i (as_written w) (as_outcome x self.old.area.now).answer) }
        ensures tally { as_tally self.new.tally ≡ counted (as_tally self.old.tally)
            (answer_number x.answer) (answer_age x.answer) }
        ensures used { self.new.used ≡ x.used }
        ensures area { self.new.area ≡ self.old.area }
        ensures lent { SameLent self.old self.new }
    {
        // A `&mut` of the words: tried as a `&`, which has no proof beside the sheet.
        let area = &mut *self.area;
        lines::put_move(self.sheet, n, i, w, x.answer.into(), area);
        self.used = x.used;
        self.tally = self
            .tally
            .brought_up(told::number(x.answer), told::age(x.answer));
    }
}
