// Orders from standard input, a frame of 1,632 bytes each, read and printed: their classes, and whether the shares are valid.
// A frame has the order's length in its first four bytes, and from byte 32 on the order.
#![tactic(auto)]

ghost use Rattle.model.proofs.Orders.{Fit};
ghost use Rattle.order.specs.Held.{as_order};

use classes::Tally;
use interval::Instants;
use order::Order;
use std::io;
use std::io::Read;
use steps::limits::{CELLS, MOST_BAY, MOST_DOSES, MOST_INTERVALS, ORDER_ROOM};

// What was found of an order. Products saturate: no shares come to so much.
#[derive(Drop)]
struct Found<'a> {
    order: &'a Order,
    instants: Instants,
    tally: &'a Tally,
    shares: &'a [u64; CELLS],
    table: &'a [[u8; MOST_INTERVALS]; MOST_DOSES],
}

// The number at i, and 0 past the end.
fn number_at(numbers: &[u64; MOST_DOSES], i: usize) -> u64 {
    numbers.get(i).copied().unwrap_or(0)
}

impl Found<'_> {
    // The place of dose k's class among the classes, one below its number.
    fn class_of(&self, k: usize) -> Option<usize> {
        let number = *self.tally.numbers.get(k)?;
        (number as usize).checked_sub(1)
    }

    fn weight(&self, i: usize) -> u64 {
        number_at(&self.tally.weight, i)
    }

    fn time(&self, i: usize) -> u64 {
        number_at(&self.tally.time, i)
    }

    // The share of dose k in interval j.
    fn share(&self, k: usize, j: usize) -> u64 {
        if k < MOST_DOSES && j < MOST_INTERVALS {
            self.shares[k * MOST_INTERVALS + j]
        } else {
            0
        }
    }

    // "its reserved fans" in interval j, of class i, by the interval's length.
    fn reserved(&self, i: usize, j: usize) -> u64 {
        if i < MOST_DOSES && j < MOST_INTERVALS {
            u64::from(self.table[i][j]).saturating_mul(u64::from(interval::span(&self.instants, j)))
        } else {
            0
        }
    }

    // "the first class as a number with bit i for dose i", of any class.
    fn class_set(&self, i: usize) -> u64 {
        let mut set: u64 = 0;
        let mut bit: u64 = 1;
        for k in 0..self.order.count {
            if self.class_of(k) == Some(i) {
                set |= bit;
            }
            bit <<= 1;
        }
        set
    }

    // "Its share in an interval of length L is at most L × W units, only where it is active".
    fn stands(&self, weight: u64, k: usize, j: usize) -> bool {
        let share = self.share(k, j);
        if share == 0 {
            return true;
        }
        k < MOST_DOSES
            && j < MOST_INTERVALS
            && interval::active(self.order, &self.instants, k, j)
            && share <= u64::from(interval::span(&self.instants, j)).saturating_mul(weight)
    }

    // Every dose has a class, and its shares stand and come to its "w × P units".
    fn dose_served(&self, k: usize) -> bool {
        let Some(i) = self.class_of(k) else {
            return false;
        };
        if self.tally.class <= i || MOST_DOSES <= k {
            return false;
        }
        let weight = self.weight(i);
        let mut sum: u64 = 0;
        for j in 0..MOST_INTERVALS {
            if !self.stands(weight, k, j) {
                return false;
            }
            sum = sum.wrapping_add(self.share(k, j));
        }
        sum == u64::from(self.order.dose(k).grams).saturating_mul(self.time(i))
    }

    // The shares of class i in interval j.
    fn class_share(&self, i: usize, j: usize) -> u64 {
        let mut sum: u64 = 0;
        for k in 0..MOST_DOSES {
            if self.class_of(k) == Some(i) {
                sum = sum.wrapping_add(self.share(k, j));
            }
        }
        sum
    }

    // The class's shares fill its reserved time: "its reserved fans × L × W".
    fn full(&self, i: usize, j: usize) -> bool {
        self.class_share(i, j) == self.reserved(i, j).saturating_mul(self.weight(i))
    }

    fn valid(&self) -> bool {
        (0..self.order.count).all(|k| self.dose_served(k))
            && (0..self.tally.class).all(|i| (0..MOST_INTERVALS).all(|j| self.full(i, j)))
    }
}

// An order that was read.
fn show_order(rt: &impl Print, o: &Order) -> io::Result<()>
    requires { Fit (as_order o.now) }
{
    let mut shares = [0u64; CELLS];
    let mut table = [[0u8; MOST_INTERVALS]; MOST_DOSES];
    let tally = classes::classes_of(o, &mut shares, &mut table);
    if let Some(first) = classes::too_fast(o, &tally) {
        let (set, weight, time) = (first.set, first.weight, first.time);
        return println!(rt; "refused 9 0 {set} {weight} {time}");
    }
    let found = Found {
        order: o,
        instants: interval::instants_of(o),
        tally: &tally,
        shares: &shares,
        table: &table,
    };
    for i in 0..tally.class {
        let (set, weight, time) = (found.class_set(i), found.weight(i), found.time(i));
        println!(rt; "class {set} {weight} {time}")?;
    }
    let verdict = if found.valid() { "valid" } else { "NOT valid" };
    println!(rt; "{verdict}")
}

fn show(rt: &impl Print, bytes: &[u8]) -> io::Result<()> {
    match order::read_order(MOST_BAY, bytes) {
        Ok(o) => show_order(rt, &o),
        Err(refusal) => {
            let (number, place) = (refusal.number(), refusal.place());
            println!(rt; "refused {number} {place}")
        }
    }
}

// The next frame's order. False where the input ends or no order is so long.
fn show_next(rt: &impl Print, input: &mut impl Read) -> io::Result<bool> {
    let mut frame = [0u8; 1632];
    if input.read_exact(&mut frame).is_err() {
        return Ok(false);
    }
    let len = records::number::read::<4>(&frame, 0) as usize;
    if ORDER_ROOM < len {
        return Ok(false);
    }
    show(rt, &frame[32..32 + len])?;
    Ok(true)
}

// Up to 1,000,000 frames.
fn main(rt: HostRuntime) -> io::Result<()> {
    let mut input = rt.stdin();
    for _ in 0..1000000 {
        if !show_next(&rt, &mut input)? {
            break;
        }
    }
    Ok(())
}
