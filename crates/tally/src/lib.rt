#![tactic(auto)]
// The tally of a run, brought up to date after each move: by value, lent, and by value over that, as document 01 asks.
ghost use Rattle.std.specs.Prelude.{◌≡◌};
ghost use Rattle.tally.specs.Tally.{counted, as_tally, Room};

// Accepted moves, refused moves, greatest age.
#[derive(Clone, Copy, Debug, Default, PartialEq, Eq)]
pub struct Tally {
    pub accepted: u64,
    pub refusals: u64,
    pub greatest: u64,
}

impl Tally {
    // `Room` stays a clause: the last count that fits leaves a tally without room. Number and age stay numbers: any may
    // be counted.

    // The tally with one more move, answered with this number and age.
    #[tactic(auto, unfolding(crate::specs::Tally::counted))]
    pub fn counted(self, number: u64, age: u64) -> Self
        requires { Room self }
        ensures { as_tally result ≡ counted (as_tally self) number age }
    {
        if number == 0 {
            Tally {
                accepted: self.accepted + 1,
                greatest: self.greatest.max(age),
                ..self
            }
        } else {
            Tally {
                refusals: self.refusals + 1,
                ..self
            }
        }
    }

    // The same on a tally that is lent.
    pub fn count(&mut self, number: u64, age: u64)
        requires { Room self.old }
        ensures { as_tally self.new ≡ counted (as_tally self.old) number age }
    {
        *self = self.counted(number, age);
    }

    // By value again, over the lent one: whoever calls this needs no borrow.
    pub fn brought_up(mut self, number: u64, age: u64) -> Self
        requires { Room self }
        ensures { as_tally result ≡ counted (as_tally self) number age }
    {
        self.count(number, age);
        self
    }
}
