// An answer as document 01 tells it: a number, whether an operation ended, and an age.
ghost use Rattle.std.specs.Prelude.{◌≡◌};
ghost use Rattle.answer.specs.Refusals.{answer_number, has_ended, answer_age};

use crate::Answer;

// 0 for an accepted call, or the number of the refusal.
pub fn number(answer: Answer) -> u64
    ensures { result ≡ answer_number answer }
{
    match answer {
        Ok(_) => 0,
        Err(refusal) => u64::from(refusal),
    }
}

// Whether an operation ended.
pub fn ended(answer: Answer) -> bool
    ensures { result ≡ has_ended answer }
{
    matches!(answer, Ok(Some(_)))
}

// The age of the operation that ended, or 0.
pub fn age(answer: Answer) -> u64
    ensures { result ≡ answer_age answer }
{
    match answer {
        Ok(Some(age)) => age,
        _ => 0,
    }
}
