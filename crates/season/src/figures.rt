// The season's figures so far, and one order more.
ghost use Rattle.std.specs.Prelude.{◌≡◌, [], ◌-◌};
ghost use Rattle.model.specs.Limits.{most_streamed};
ghost use Rattle.model.specs.Season.{season_of};
ghost use Rattle.season.specs.Held.{as_outcome, as_season, OutcomeFits, SeasonFits};
ghost use Rattle.season.specs.Adding.{with_outcome};

use crate::outcome::{Accepted, Rate, Refused};
use steps::limits::ORDER_NUMBERS;

// Orders accepted, orders refused by number, grams accepted, fan-seconds and the greatest first class.
#[derive(Clone, Copy)]
pub struct Season {
    pub accepted: u32,
    pub refused: [u32; ORDER_NUMBERS],
    pub grams: u64,
    pub seconds: u64,
    pub greatest: Rate,
}

impl Season {
    // Before the first order.
    pub(crate) fn new() -> Season
        ensures { as_season result ≡ season_of [] }
    {
        Season {
            accepted: 0,
            refused: [0; ORDER_NUMBERS],
            grams: 0,
            seconds: 0,
            greatest: Rate::NONE,
        }
    }

    // One order more, by what it comes to: "Planned totals are over accepted orders only."
    pub(crate) fn with(mut self, outcome: Result<Accepted, Refused>) -> Season
        requires { SeasonFits (most_streamed - 1) self × OutcomeFits outcome }
        ensures { as_season result ≡ with_outcome (as_season self) (as_outcome outcome) }
    {
        match outcome {
            Ok(order) => {
                self.accepted += 1;
                self.grams += order.grams;
                self.seconds += order.seconds;
                self.greatest = self.greatest.greater(order.first);
            }
            Err(refused) => self.refused[refused.number() as usize] += 1,
        }
        self
    }
}
