// Reading a file into lent bytes, since there is no heap; so it says how many there are.
ghost use Rattle.io.specs.Counts.{IsPrefixLen};

use std::io::Read;

// Reads into the bytes until they are full, the file ends or a read fails: how many there are then. Each read asks for
// all that is still to fill: of a message longer than a read, the rest would be lost.
pub fn read_file(mut file: impl Read + Drop, buf: &mut [u8]) -> usize
    ensures { IsPrefixLen result buf.new }
{
    let mut done = 0;
    // At most one read for each byte.
    for _ in 0..buf.len() {
        match file.read(&mut buf[done..]) {
            Ok(count) if count > 0 => done += count,
            _ => break,
        }
        if done == buf.len() {
            break;
        }
    }
    done
}
