#![tactic(auto)]
// Runs the small runs of document 01 that are not proved of the definitions, and those of document 02's requests, on
// the calls of `board`, and prints each answer: its number, then "ended" and the age where an operation ended. The
// status is 0.
use answer::{Answer, told};
use area::Layout;
use std::fmt;

// A piece of what is told. One that the output does not take is let go, and the next ones still go out.
fn put(rt: &impl Print, piece: impl fmt::Display + Drop) {
    let _ = print!(rt; "{piece}");
}

// An answer: its number, and the age where an operation ended.
fn tell(rt: &impl Print, answer: Answer) {
    put(rt, " ");
    put(rt, told::number(answer));
    if let Ok(Some(age)) = answer {
        put(rt, " ended ");
        put(rt, age);
    }
}

// The calls, each with its answer.

fn make(form: u64, n: u64, c: u64, record: &[u64], area: &mut [u64]) -> Answer {
    board::making::make(form, n, c, record, area)
}

fn begin_read(area: &mut [u64], reader: u64) -> Answer {
    board::reads::begin_read(area, reader)
}

fn begin_write(area: &mut [u64], record: &[u64]) -> Answer {
    board::writes::begin_write(area, record)
}

fn step(area: &mut [u64], process: u64) -> Answer {
    board::steps::step(area, process)
}

// A line begins: what is run, and the first answers.
fn line(rt: &impl Print, what: &str, answers: &[Answer]) {
    put(rt, "\n");
    put(rt, what);
    for &answer in answers {
        tell(rt, answer);
    }
}

// How many words are shown of reader 0. The default has two.
fn show(rt: &impl Print, area: &[u64]) {
    put(rt, " shows ");
    put(rt, board::showing::show(area, 0, &[8, 9]).len());
}

// N and C out of range.
fn made_out_of_range(rt: &impl Print) {
    let sizes = [(0, 1), (65, 1), (1, 0), (1, 257)];
    let answers = sizes.map(|(n, c)| make(1, n, c, &[7], &mut [5; 38]));
    line(rt, "N=0, N=65, C=0, C=257:", &answers);
}

// Forms that are not known.
fn made_of_another_form(rt: &impl Print) {
    let answers = [0, 2].map(|form| make(form, 1, 1, &[7], &mut [5; 38]));
    line(rt, "form 0, form 2:", &answers);
}

// Words of another number than T = 38.
fn made_of_another_length(rt: &impl Print) {
    let answers = [
        make(1, 1, 1, &[7], &mut [5; 37]),
        make(1, 1, 1, &[7], &mut [5; 39]),
        make(1, 1, 1, &[7], &mut []),
        make(1, 1, 1, &[7], &mut [5; 38]),
    ];
    line(rt, "T-1, T+1, no words, T:", &answers);
}

// A starting record of no words is read in two steps.
fn starts_with_nothing(rt: &impl Print) {
    let mut area = [5; 38];
    let answers = [
        make(1, 1, 1, &[], &mut area),
        begin_read(&mut area, 0),
        step(&mut area, 0),
        step(&mut area, 0),
    ];
    line(rt, "a starting record of no words:", &answers);
    show(rt, &area);
}

// Process N is the writer; process N + 1 is nobody, and reader N neither.
fn processes(rt: &impl Print) {
    let mut area = [5; 38];
    let answers = [
        make(1, 1, 1, &[7], &mut area),
        step(&mut area, 1),
        begin_write(&mut area, &[7]),
        step(&mut area, 1),
        step(&mut area, 2),
        step(&mut area, u64::MAX),
        begin_read(&mut area, 1),
    ];
    line(rt, "process N, N+1:", &answers);
}

// Words that are no area, and a damaged one.
fn damaged(rt: &impl Print) {
    let mut area = [5; 38];
    let unmade = step(&mut area, 0);
    let made = make(1, 1, 1, &[7], &mut area);
    area[37] = 5;
    area[Layout::CURRENT] = 4294967298;
    let altered = step(&mut area, 0);
    line(rt, "no area, a damaged one:", &[unmade, made, altered]);
    show(rt, &area);
}

// Steps of a process until its operation ends, at most 1,000: how many, and the last answer.
fn to_the_end(rt: &impl Print, area: &mut [u64], process: u64) {
    for i in 1..=1000u64 {
        let answer = step(area, process);
        if told::ended(answer) {
            put(rt, " steps ");
            put(rt, i);
            tell(rt, answer);
            return;
        }
    }
    put(rt, " does not end");
}

// A whole read.
fn read(rt: &impl Print, area: &mut [u64], reader: u64) {
    tell(rt, begin_read(area, reader));
    to_the_end(rt, area, reader);
}

// The largest area: a read by the last reader and a write, each of 256 words.
fn largest(rt: &impl Print) {
    let record = [7; 256];
    let mut area = [5; 34199];
    let made = make(1, 64, 256, &record, &mut area);
    line(rt, "N=64, C=256:", &[made]);
    read(rt, &mut area, 63);
    tell(rt, begin_write(&mut area, &record));
    to_the_end(rt, &mut area, 64);
    read(rt, &mut area, 0);
    show(rt, &area);
}

// So many steps of a process, of which nothing is told.
fn steps(area: &mut [u64], process: u64, k: u64) {
    for _ in 0..k {
        let _ = step(area, process);
    }
}

// An area whose reader has one word left to copy, of a starting record of one word.
fn almost_read() -> [u64; 38] {
    let mut area = [5; 38];
    let _ = make(1, 1, 1, &[7], &mut area);
    let _ = begin_read(&mut area, 0);
    steps(&mut area, 0, 2);
    area
}

// That read ends after k of a write's eight steps; for k from 2 to 7 the writer is then in phase k.
fn ends_beside(k: u64) -> Answer {
    let mut area = almost_read();
    let _ = begin_write(&mut area, &[8]);
    steps(&mut area, 1, k);
    step(&mut area, 0)
}

// Request 1: the age counts a write from its publication on, in phase 7 too.
fn beside_a_write(rt: &impl Print) {
    let answers = [5, 6, 7, 8].map(ends_beside);
    line(rt, "a read ends in writer phases 5, 6, 7, 0:", &answers);
}

// That read ends on an altered area: its write number, the writer's phase, writes ended.
fn ends_altered((number, phase, ended): (u64, u64, u64)) -> Answer {
    let mut area = almost_read();
    area[27] = number;
    area[30] = phase;
    area[36] = ended;
    step(&mut area, 0)
}

fn number_above(rt: &impl Print) {
    let answers = [(5, 0, 3), (5, 7, 3), (4, 7, 3), (u64::MAX, 0, 0)].map(ends_altered);
    line(rt, "a write number above the writes ended:", &answers);
}

fn most_writes(rt: &impl Print) {
    let ended = u64::MAX - 1;
    let answers = [(0, 7, ended), (ended, 7, ended), (u64::MAX, 7, ended)].map(ends_altered);
    line(rt, "2^64-2 writes ended in phase 7:", &answers);
    let answers = [(0, 0, u64::MAX), (0, 7, u64::MAX)].map(ends_altered);
    line(rt, "2^64-1 writes ended in phases 0 and 7:", &answers);
}

fn tell_all(rt: &impl Print) {
    put(rt, "small runs");
    made_out_of_range(rt);
    made_of_another_form(rt);
    made_of_another_length(rt);
    starts_with_nothing(rt);
    processes(rt);
    damaged(rt);
    largest(rt);
    beside_a_write(rt);
    number_above(rt);
    most_writes(rt);
    put(rt, "\n");
}

fn main(rt: HostRuntime) {
    tell_all(&rt);
}
