// A refusal in numbers, for those who get no enum: C, and the printers' texts. The refusals' `numbers` are no trait's: nobody takes a refusal of any
// kind, and each says what its own map says.
ghost use Rattle.std.specs.Prelude.{◌≡◌};
ghost use Rattle.model.specs.Answers.{refusal};
ghost use Rattle.classes.specs.Answer.{as_numbers, nine};

use crate::TooFast;

// "number and place", and of 9 "the first class as a number with bit i for dose i, its W and P".
#[derive(Clone, Copy, PartialEq, Eq)]
pub struct Numbers {
    pub number: u32,
    pub place: usize,
    pub set: u64,
    pub weight: u64,
    pub time: u64,
}

impl Numbers {
    // Of a refusal with no set: "Fields not meant are 0."
    pub fn of(number: u32, place: usize) -> Numbers
        ensures { as_numbers result ≡ refusal number place }
    {
        Numbers {
            number,
            place,
            set: 0,
            weight: 0,
            time: 0,
        }
    }
}

impl TooFast {
    // Refusal 9.
    pub fn numbers(self) -> Numbers
        ensures { as_numbers result ≡ nine self }
    {
        Numbers {
            number: 9,
            place: 0,
            set: self.set,
            weight: self.weight,
            time: self.time,
        }
    }
}
