// How many words and bytes are enough for any run file.

// The longest run file has 28 + 4 * 4,000 + 8 * 1,000 bytes; one more, so that a longer one is noticed.
pub const FILE: usize = 24029;

// Words of the largest area of a run: N 8, C 32.
pub const AREA: usize = 711;

// So many bytes hold the text of any file (`printing::whole_text`).
pub const TEXT: usize = 290000;
