// What a run file is, and the header, on any bytes.
ghost use Rattle.std.specs.Prelude.{◌≡◌};
ghost use Rattle.runfile.specs.RunFile.{is_run_file};
ghost use Rattle.runfile.specs.Code.{header_of};

use crate::bytes::number_at;
use crate::types::Header;

// Whether the bytes are a run file.
#[tactic(auto, unfolding(crate::specs::RunFile::is_run_file))]
pub fn is_run_file(file: &[u8]) -> bool
    ensures { result ≡ is_run_file file.now }
{
    let h = header(file);
    Header::BYTES <= file.len() && h.sizes_pass() && h.parts_pass(file.len())
}

// The counts and offsets that stand in a header.
pub fn header(file: &[u8]) -> Header
    ensures { result ≡ header_of file.now }
{
    Header {
        n: number_at(file, Header::READERS),
        c: number_at(file, Header::CAPACITY),
        starting: number_at(file, Header::STARTING),
        moves: number_at(file, Header::MOVES),
        moves_at: number_at(file, Header::MOVES_AT),
        values: number_at(file, Header::VALUES),
        values_at: number_at(file, Header::VALUES_AT),
    }
}
