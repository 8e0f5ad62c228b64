// Why a call is refused, and the numbers of document 01 for it.
ghost use Rattle.std.specs.Prelude.{◌≡◌};
ghost use Rattle.answer.specs.Refusals.{number_of};
ghost use Rattle.answer.specs.declared.refusals.Refusal.TheVariants.{Damaged};

use area::phases::UnknownPhase;

// Each is given exactly when the table of document 01 says it of its number: 1 to 10 by the board, 11 to 13 by a run.
#[derive(Clone, Copy, Debug, PartialEq, Eq)]
pub enum Refusal {
    // Not an area.
    NotAnArea = 1,
    // Damaged, or a step would lift r_end or a counter above its limit.
    Damaged = 2,
    // No such process in a step, or no such reader in a begin.
    NoProcess = 3,
    // A record longer than C.
    TooLong = 4,
    // A begin while the phase is not 0.
    Busy = 5,
    // A step in phase 0.
    Idle = 6,
    // A begin of a write when writes ended is as large as it may be.
    Full = 7,
    // A look at the last slot, and it is not free.
    NoneFree = 8,
    // Making: an unknown form, or N or C outside its range.
    OutOfRange = 9,
    // Making: the slice has another length than T.
    AnotherLength = 10,
    // A run file refused.
    NoRunFile = 11,
    // A malformed move of a run.
    Malformed = 12,
    // A move of a run wants more values than are left.
    TooFewValues = 13,
}

// The number that document 01 gives it.
impl From<Refusal> for u64 {
    ghost from_gives = { λ refusal number. number ≡ number_of refusal };

    fn from(refusal: Refusal) -> u64 {
        refusal as u64
    }
}

// A phase that there is not is damage.
impl From<UnknownPhase> for Refusal {
    ghost from_gives = { λ _ r. r ≡ Damaged };

    fn from(_phase: UnknownPhase) -> Refusal {
        Refusal::Damaged
    }
}
