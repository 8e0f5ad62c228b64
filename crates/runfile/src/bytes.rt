// Bytes at a place in any bytes. Nothing outside them is read: past their end there are zeros.
ghost use Rattle.std.specs.Prelude.{◌≡◌, get_or};
ghost use Rattle.runfile.specs.Bytes.{bytes_at, number_at};

use std::array;

// K bytes from a place on.
pub fn bytes_at<const K: usize>(bytes: &[u8], at: usize) -> [u8; K]
    ensures { result ≡ bytes_at K bytes.now at }
{
    let rest = bytes.get(at..).unwrap_or(&[]);
    array::from_fn(|i| byte_at(rest, i))
}

// The byte at a place.
fn byte_at(bytes: &[u8], at: usize) -> u8
    ensures { result ≡ get_or bytes.now at 0 }
{
    bytes.get(at).copied().unwrap_or(0)
}

// The number of the four bytes from a place on, the lowest first.
pub fn number_at(bytes: &[u8], at: usize) -> u32
    ensures { result ≡ number_at 4 bytes.now at }
{
    u32::from_le_bytes(bytes_at(bytes, at))
}
