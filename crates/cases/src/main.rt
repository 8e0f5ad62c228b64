#![tactic(auto)]
// Plays run files and compares each text with the expected one, byte by byte. The arguments name a run file, its
// text, the next run file, its text, and so on. A case that does not hold is told by its name, and the last line says
// how many hold. The status is 0 whatever holds.
ghost use Rattle.std.specs.Prelude.{◌*◌, ◌≤◌};

use bench::input::read_file;
use bench::sizes;
use std::env::FillError;
use std::fs;
use std::rt::{Env, Files};

// The most bytes that an argument may have.
const NAME: usize = 4096;

// The file that argument i names, if there is one.
fn opened<R: Env + Files>(rt: &R, i: usize) -> Option<R::File> {
    let mut path = [0u8; NAME];
    let length = rt.arg(i, &mut path).ok()?;
    let name = str::from_utf8(&path[..length]).ok()?;
    fs::open(rt, name).ok()
}

// Whether both files are there and the text of the first is the second.
fn holds<R: Env + Files>(rt: &R, run: usize, expected: usize) -> bool {
    let Some(run_file) = opened(rt, run) else {
        return false;
    };
    let Some(text_file) = opened(rt, expected) else {
        return false;
    };
    let mut file = [0u8; sizes::FILE];
    let length = read_file(run_file, &mut file);
    let mut wanted = [0u8; sizes::TEXT];
    let size = read_file(text_file, &mut wanted);
    let mut text = [0u8; sizes::TEXT];
    let end = bench::printing::whole_text(&file[..length], &mut text);
    text::same(&text[..end], &wanted[..size])
}

// Whether a case holds; one that does not is told by its name.
fn told<R: Env + Files + Print>(rt: &R, run: usize, expected: usize) -> bool {
    if holds(rt, run, expected) {
        return true;
    }
    let mut path = [0u8; NAME];
    let length = rt.arg(run, &mut path).unwrap_or(0);
    let _ = rt.write_all(&path[..length]);
    let _ = println!(rt; " differs");
    false
}

// How many of so many cases hold.
fn all<R: Env + Files + Print>(rt: &R, count: usize) -> usize
    requires { 2 * count ≤ 18446744073709551615 }
{
    (0..count)
        .filter(|&i| told(rt, 2 * i + 1, 2 * i + 2))
        .count()
}

// How many arguments there are, the program's own name among them.
fn arguments<R: Env>(rt: &R) -> usize {
    (0..usize::MAX)
        .find(|&i| matches!(rt.arg(i, &mut []), Err(FillError::NotPresent)))
        .unwrap_or(usize::MAX)
}

fn main(rt: HostRuntime) {
    let count = arguments(&rt) / 2;
    let held = all(&rt, count);
    // In pieces: an output that takes some of them and no more keeps those.
    let _ = print!(rt; "{held}");
    let _ = print!(rt; " of ");
    let _ = print!(rt; "{count}");
    let _ = println!(rt; " cases hold");
}
