#![tactic(auto)]
// The bench: reads a run file from standard input and prints what its run did. All that matters is in `bench`. The
// status is 0 whatever the run did.
use bench::input::read_file;
use bench::sizes;

fn main(rt: HostRuntime) {
    let mut file = [0u8; sizes::FILE];
    let length = read_file(rt.stdin(), &mut file);
    tell(&rt, &file[..length]);
}

// Prints what the run of a file did. Apart from `main`, where the bytes of the text were set to 0 twice.
fn tell(rt: &impl Print, file: &[u8]) {
    let mut text = [0u8; sizes::TEXT];
    let end = bench::printing::whole_text(file, &mut text);
    let _ = rt.write_all(&text[..end]);
}
