// The season's sheet (document 02, C-15): a stream of orders is cut at its F records, each order is read by itself, and what they come to is added up.
#![tactic(auto)]

mod figures; // figures.rt: the figures so far and one order more
mod outcome; // outcome.rt: what one order comes to

ghost use Rattle.std.specs.Prelude.{◌≡◌, ◌||◌, ◌+◌, ◌-◌, ◌/◌, ◌%◌, ◌≤◌, eqb, length};
ghost use Rattle.model.specs.Limits.{stream_room};
ghost use Rattle.model.specs.Records.{record_size};
ghost use Rattle.model.specs.Season.{before_next, begins, stream_fits, AddsUp};
ghost use Rattle.season.specs.Held.{as_added_up, OpensWithFans, SeasonIn};

pub use figures::Season;
pub use outcome::Rate;
use outcome::order_comes;
use records::{Kind, RECORD_SIZE, kind_at, record_count};
use steps::limits::STREAM_ROOM;

// Refusal 16: "the stream is longer, is not whole records, or is not empty and doesn't open with F".
#[derive(Clone, Copy, Debug, PartialEq, Eq)]
pub struct NoStream;

impl NoStream {
    pub fn number(self) -> u32
        ensures { result ≡ 16 }
    {
        16
    }
}

// The first F from a record on, of n records; n where none is, since the last order ends there.
fn next_fans(stream: &[u8], from: usize, n: usize) -> usize
    requires { (n ≡ length stream.now / record_size) × (from ≤ n) }
    ensures { result ≡ from + before_next stream.now from (n - from) }
{
    for i in from..n {
        if kind_at(stream, i) == Kind::Fans {
            return i;
        }
    }
    n
}

// "the records from that one on, up to the next F, are read as an order of their own": a part of the stream is handed to the order reader.
fn season_in(stream: &[u8]) -> Season
    requires { (length stream.now ≤ stream_room) × OpensWithFans stream.now }
    ensures { SeasonIn stream.now result }
{
    let n = record_count(stream);
    let mut season = Season::new();
    let mut i = 0;

    // No `for`: the next order begins as many records on as this one has.
    while i < n {
        let next = next_fans(stream, i + 1, n);
        let a = RECORD_SIZE * i;
        let b = RECORD_SIZE * next;
        season = season.with(order_comes(&stream[a..b]));
        i = next;
    }
    season
}

// Whether whole records are none, or the first is an F.
fn opens(stream: &[u8]) -> bool
    requires { length stream.now % record_size ≡ 0 }
    ensures { result ≡ (eqb (length stream.now) 0 || begins stream.now 0) }
{
    stream.is_empty() || kind_at(stream, 0) == Kind::Fans
}

// "a stream of up to 65,536 bytes", of whole records, that is empty or opens with F.
fn stream_fits(stream: &[u8]) -> bool
    ensures { result ≡ stream_fits stream.now }
{
    stream.len() <= STREAM_ROOM && stream.len() % RECORD_SIZE == 0 && opens(stream)
}

// A stream of orders added up.
pub fn add_up(stream: &[u8]) -> Result<Season, NoStream>
    ensures { AddsUp stream.now (as_added_up result) }
{
    if !stream_fits(stream) {
        return Err(NoStream);
    }
    Ok(season_in(stream))
}
