// The moves of a run file, one by one, and what each asks for, on any bytes.
ghost use Rattle.std.specs.Prelude.{◌≡◌};
ghost use Rattle.runfile.specs.RunFile.{written, asked};
ghost use Rattle.runfile.specs.Code.{as_written, as_asked};

use crate::bytes::bytes_at;
use crate::kind::Kind;
use crate::types::{Call, Header, Written};

// Move k.
pub fn written_move(file: &[u8], k: u32) -> Written
    ensures { as_written result ≡ written file.now k }
{
    let [process, kind, low, high] = bytes_at::<4>(file, Header::BYTES + 4 * k as usize);
    Written {
        process: u64::from(process),
        kind: u64::from(kind),
        len: u64::from(u16::from_le_bytes([low, high])),
    }
}

// The call that a move asks for, if it is not malformed: a length stands only with a begin of process n.
pub fn asked(n: u64, w: Written) -> Option<Call>
    ensures { as_asked result ≡ asked n (as_written w) }
{
    match Kind::try_from(w.kind) {
        Ok(Kind::Begin) if w.process == n => Some(Call::Values(w.len)),
        Ok(Kind::Begin) if w.len == 0 => Some(Call::Read(w.process)),
        Ok(Kind::Step) if w.len == 0 => Some(Call::Step(w.process)),
        _ => None,
    }
}
