// What the library's functions answer, as the structs that C reads: here alone an answer becomes plain numbers, "fields not meant are 0".
ghost use Rattle.std.specs.Prelude.{◌≡◌};
ghost use Rattle.plan.specs.Answered as planning;
ghost use Rattle.classes.specs.Answer.{as_numbers};
ghost use Rattle.judge.specs.Verdict.{as_answer};
ghost use Rattle.draw.specs.Drawing.{as_state, as_point, as_drawn};
ghost use Rattle.log_beside.specs.Laying as laying;
ghost use Rattle.season.specs.Held as adding;
ghost use Rattle.knellgable.specs.Exported.{as_planned, as_judged, as_laid, as_added_up, state_number, state_fan, DrawnNumbers};

use crate::{AddedUp, Drawn, Judged, Laid, Planned};
use classes::Numbers;
use draw::{Point, State};
use season::{NoStream, Season};
use steps::limits::ORDER_NUMBERS;

// "0 done"
const DONE: Numbers = Numbers {
    number: 0,
    place: 0,
    set: 0,
    weight: 0,
    time: 0,
};

impl From<Result<plan::Planned, plan::Refusal>> for Planned {
    ghost from_gives = { λ r p. as_planned p ≡ planning.as_planned r };

    fn from(answer: Result<plan::Planned, plan::Refusal>) -> Planned {
        let (numbers, classes, slots) = match answer {
            Ok(p) => (DONE, p.classes, p.slots),
            Err(r) => (r.numbers(), 0, 0),
        };
        let Numbers {
            number,
            place,
            set,
            weight,
            time,
        } = numbers;
        Planned {
            number,
            place,
            set,
            weight,
            time,
            classes,
            slots,
        }
    }
}

impl From<Result<(), judge::Refusal>> for Judged {
    ghost from_gives = { λ r j. as_judged j ≡ as_answer r };

    fn from(verdict: Result<(), judge::Refusal>) -> Judged {
        let n = match verdict {
            Ok(()) => DONE,
            Err(r) => r.numbers(),
        };
        Judged {
            number: n.number,
            place: n.place,
            set: n.set,
            weight: n.weight,
            time: n.time,
        }
    }
}

// A state's number, and the fan of Dosing.
#[tactic(auto, unfolding(crate::specs::Exported::state_number, crate::specs::Exported::state_fan, draw::specs::Drawing::as_state))]
fn state_numbers(s: State) -> (u32, u32)
    ensures { (result.0 ≡ state_number (as_state s)) × (result.1 ≡ state_fan (as_state s)) }
{
    match s {
        State::Finished => (0, 0),
        State::Shut => (1, 0),
        State::Idle => (2, 0),
        State::Dosing(fan) => (3, fan),
    }
}

fn drawn(a: Numbers, p: Point) -> Drawn
    ensures { DrawnNumbers (record { answer = as_numbers a; point = as_point p }) result }
{
    let (state, fan) = state_numbers(p.state);
    Drawn {
        number: a.number,
        place: a.place,
        set: a.set,
        weight: a.weight,
        time: a.time,
        amount: p.amount,
        state,
        fan,
    }
}

// No point comes with a refusal: "a state not meant is Shut".
impl From<Result<Point, draw::Refusal>> for Drawn {
    ghost from_gives = { λ r d. DrawnNumbers (as_drawn r) d };

    fn from(answer: Result<Point, draw::Refusal>) -> Drawn {
        match answer {
            Ok(p) => drawn(DONE, p),
            Err(e) => {
                let none = Point {
                    amount: 0,
                    state: State::Shut,
                };
                drawn(e.numbers(), none)
            }
        }
    }
}

impl From<Result<log_beside::Laid, log_beside::Refusal>> for Laid {
    ghost from_gives = { λ r l. as_laid l ≡ laying.as_laid r };

    fn from(answer: Result<log_beside::Laid, log_beside::Refusal>) -> Laid {
        let (numbers, metered, risen, unknown) = match answer {
            Ok(l) => (DONE, l.metered, l.risen, l.unknown),
            Err(e) => (e.numbers(), 0, 0, 0),
        };
        let Numbers {
            number,
            place,
            set,
            weight,
            time,
        } = numbers;
        Laid {
            number,
            place,
            set,
            weight,
            time,
            metered,
            risen,
            unknown,
        }
    }
}

impl From<Result<Season, NoStream>> for AddedUp {
    ghost from_gives = { λ r a. as_added_up a ≡ adding.as_added_up r };

    fn from(answer: Result<Season, NoStream>) -> AddedUp {
        match answer {
            Ok(s) => {
                let refused = s.refused;
                AddedUp {
                    number: 0,
                    place: 0,
                    accepted: s.accepted,
                    refused,
                    grams: s.grams,
                    seconds: s.seconds,
                    weight: u64::from(s.greatest.weight),
                    time: u64::from(s.greatest.time),
                }
            }
            Err(e) => AddedUp {
                number: e.number(),
                place: 0,
                accepted: 0,
                refused: [0; ORDER_NUMBERS],
                grams: 0,
                seconds: 0,
                weight: 0,
                time: 0,
            },
        }
    }
}
