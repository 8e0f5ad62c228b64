// What a move came to, by value.
use answer::Answer;

// The call's answer, and how many values are used up then.
#[derive(Clone, Copy, Debug, PartialEq, Eq)]
pub struct Played {
    pub answer: Answer,
    pub used: u64,
}
