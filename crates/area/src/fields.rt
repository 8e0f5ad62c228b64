// What the current word says, and the most that writes ended may be.
ghost use Rattle.std.specs.Prelude.{◌≡◌};
ghost use Rattle.register.specs.Area.{index, counter};

// The current word is a slot's index times this, and the readers' counter. The old word is one like it.
pub const INDEX_UNIT: u64 = 1 << 32;

// The most that writes ended may be.
pub const MOST_WRITES: u64 = u64::MAX;

// The index of the slot that the current word, or the old word, names.
pub fn index(word: u64) -> u64
    ensures { result ≡ index word }
{
    word / INDEX_UNIT
}

// The readers that the current word, or the old word, counts.
pub fn counter(word: u64) -> u64
    ensures { result ≡ counter word }
{
    word % INDEX_UNIT
}
