// The values of a run file, on any bytes.
ghost use Rattle.std.specs.Prelude.{◌≡◌, ◌+◌, ◌*◌};
ghost use Rattle.runfile.specs.Bytes.{number_at};
ghost use Rattle.runfile.specs.RunFile.{values_at};

use crate::bytes::{bytes_at, number_at};
use crate::types::Header;

// Value k.
pub fn value(file: &[u8], k: u32) -> u64
    ensures { result ≡ number_at 8 file.now (values_at file.now + 8 * k) }
{
    let at = number_at(file, Header::VALUES_AT) as usize + 8 * k as usize;
    u64::from_le_bytes(bytes_at(file, at))
}
