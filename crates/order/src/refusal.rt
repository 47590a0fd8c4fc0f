// Why an order is refused (document 01, refusals 2 to 8; document 02, C-14: 15).
ghost use Rattle.std.specs.Prelude.{◌≡◌};
ghost use Rattle.order.specs.Held.{number_of, place_of};

// "Each check hands back either the record's fields or a refusal number and place." The place is a record's index, where one is at fault.
#[derive(Clone, Copy, PartialEq, Eq)]
pub enum Refusal {
    Length,
    Kind(usize),
    NotBlank(usize),
    OutOfRange(usize),
    NotOneFans,
    TooManyDoses,
    Clash(usize),
    TrialBay(usize),
}

impl Refusal {
    // Its number in the documents.
    pub fn number(self) -> u32
        ensures { result ≡ number_of self }
    {
        match self {
            Refusal::Length => 2,
            Refusal::Kind(_) => 3,
            Refusal::NotBlank(_) => 4,
            Refusal::OutOfRange(_) => 5,
            Refusal::NotOneFans => 6,
            Refusal::TooManyDoses => 7,
            Refusal::Clash(_) => 8,
            Refusal::TrialBay(_) => 15,
        }
    }

    // "Fields not meant are 0."
    pub fn place(self) -> usize
        ensures { result ≡ place_of self }
    {
        match self {
            Refusal::Kind(k)
            | Refusal::NotBlank(k)
            | Refusal::OutOfRange(k)
            | Refusal::Clash(k)
            | Refusal::TrialBay(k) => k,
            Refusal::Length | Refusal::NotOneFans | Refusal::TooManyDoses => 0,
        }
    }
}
