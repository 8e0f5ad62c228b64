#![tactic(auto)]
// A text that grows in lent bytes. What finds no room is left out; nothing outside the bytes is touched.
ghost use Rattle.std.specs.Prelude.{[], ◌∷◌, map, ◌≡◌};
ghost use Rattle.text.specs.Lines.{blank, decimal, behind_blanks, same_text};
ghost use Rattle.text.specs.Sheet.{sheet, Puts};
ghost use Rattle.text.specs.Sheet.{put as sheet_put};

// Lent bytes, since there is no heap, and where the text in them ends. No `Display`: what a text without room leaves is
// said too (`Puts`), and `put_all` and `put_fields` are no plainer as one loop over a closure.
#[derive(Drop)]
pub struct Sheet<'a> {
    pub bytes: &'a mut [u8],
    pub end: usize,
}

impl Sheet<'_> {
    // One byte behind the text.
    pub fn put(&mut self, byte: u8)
        ensures { Puts self.old self.new (byte ∷ []) }
    {
        self.end = put_byte(self.bytes, self.end, byte);
    }

    // All of these bytes, one behind another.
    #[tactic(auto, using(crate::proofs::Sheets::put_nothing))]
    pub fn put_all(&mut self, bytes: &[u8])
        ensures { Puts self.old self.new bytes.now }
    {
        let out = &mut *self.bytes;
        let at = self.end.min(out.len());
        let mut end = at;
        for &byte in bytes {
            end = put_byte(out, end, byte);
        }
        self.end = end;
    }

    // A text that is said to end past the bytes ends where they do.
    fn end_within(&mut self)
        ensures { Puts self.old self.new [] }
    {
        self.end = self.end.min(self.bytes.len());
    }

    // A number in decimal.
    pub fn put_number(&mut self, n: u64)
        ensures { Puts self.old self.new (decimal n) }
    {
        let mut digits = [0u8; 20];
        let k = io::decimal(n, &mut digits);
        self.put_all(&digits[..k]);
    }

    // A blank, and a number in decimal.
    pub fn put_field(&mut self, n: u64)
        ensures { Puts self.old self.new (blank ∷ decimal n) }
    {
        self.put(b' ');
        self.put_number(n);
    }

    // Each of these words behind a blank, in decimal.
    pub fn put_fields(&mut self, words: &[u64])
        ensures { Puts self.old self.new (behind_blanks (map decimal words.now)) }
    {
        self.end_within();
        for &word in words {
            self.put_field(word);
        }
    }
}

// One byte behind the text that ends there: where it ends then. By value, so that a loop keeps the end in a register:
// of a lent sheet it goes through memory, since a store to the bytes may be one to the sheet, for all a compiler knows.
#[tactic(auto, using(crate::proofs::Sheets::put_byte, crate::proofs::Sheets::put_past))]
fn put_byte(bytes: &mut [u8], end: usize, byte: u8) -> usize
    ensures { sheet bytes.new result ≡ sheet_put (sheet bytes.old end) (byte ∷ []) }
{
    if end < bytes.len() {
        bytes[end] = byte;
        end + 1
    } else {
        bytes.len()
    }
}

// Whether two texts are the same, byte by byte.
pub fn same(one: &[u8], other: &[u8]) -> bool
    ensures { result ≡ same_text one.now other.now }
{
    one == other
}
