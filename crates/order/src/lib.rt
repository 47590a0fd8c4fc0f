// Orders read from bytes (document 01, "Records" and refusals 2 to 8; document 02, C-14: 15, and C-16: the rest). The caller names the last bay that
// is open.
#![tactic(auto)]

mod record; // record.rt: one record
mod refusal; // refusal.rt: why an order is refused

ghost use Rattle.std.specs.Prelude.{◌≡◌, ◌+◌, ◌<◌, ◌≤◌, length};
ghost use Rattle.model.specs.Limits.{most_doses, most_records, order_room};
ghost use Rattle.model.specs.Records.{read_all};
ghost use Rattle.model.specs.Orders.{entry_of, clash, rest_by};
ghost use Rattle.records.specs.Held.{as_dose};
ghost use Rattle.order.specs.Held.{dose_held, no_order, ReadFrom};
ghost use Rattle.order.specs.Gathered.{no_records, with_fans, with_dose, added, walked_from};
ghost use Rattle.order.specs.Gathered.{earlier_clash, first_clash, settled};

use record::record_at;
use records::{Dose, Fans, RECORD_SIZE, record, record_count};
pub use refusal::Refusal;
use steps::limits::{MOST_DOSES, ORDER_ROOM, VALVE_REST};

// What a record that is not refused says.
#[derive(Clone, Copy)]
pub enum Entry {
    Fans(Fans),
    Dose(Dose),
}

// "exactly one F, anywhere among up to 24 D": the doses stand at the front, zeros behind the last. The rest is in seconds. The project uses no heap,
// so the array has room for all, and its count stands beside it. That the count fits is asked where it is needed and no invariant: `dose` and
// `measure::active_in_order` answer for any order. So it is with what else an order that was read keeps (`Fit`).
#[derive(Clone, Copy)]
pub struct Order {
    pub fans: u32,
    pub rest: u32,
    pub top_grams: u32,
    pub top_seconds: u32,
    pub count: usize,
    pub doses: [Dose; MOST_DOSES],
}

impl Order {
    #[tactic(auto, unfolding(crate::specs::Held::held_order, crate::specs::Held::column))]
    fn none() -> Order
        ensures { result ≡ no_order }
    {
        let zeros = Dose {
            bay: 0,
            release: 0,
            deadline: 0,
            grams: 0,
        };
        Order {
            fans: 0,
            rest: 0,
            top_grams: 0,
            top_seconds: 0,
            count: 0,
            doses: [zeros; MOST_DOSES],
        }
    }

    // Dose k of an order.
    pub fn dose(&self, k: usize) -> Dose
        requires { k < most_doses }
        ensures { as_dose result ≡ dose_held self.now k }
    {
        self.doses[k]
    }
}

// What the records so far come to: F records, D records, the last F and the first 24 doses as an order, and the record
// index of each of these doses, apart from them, since the order is handed on without; `doses` counts on past 24. Rules for the doses wait until all
// records are there: their F may stand behind them.
#[derive(Drop)]
struct Gathered {
    heads: usize,
    doses: usize,
    places: [usize; MOST_DOSES],
    order: Order,
}

impl Gathered {
    #[tactic(auto, unfolding(crate::specs::Gathered::no_records, crate::specs::Held::column))]
    fn none() -> Gathered
        ensures { result ≡ no_records }
    {
        Gathered {
            heads: 0,
            doses: 0,
            places: [0; MOST_DOSES],
            order: Order::none(),
        }
    }

    #[tactic(auto, unfolding(crate::specs::Gathered::with_fans))]
    fn add_fans(&mut self, f: Fans)
        requires { self.old.heads < most_records }
        ensures { self.new ≡ with_fans self.old f }
    {
        self.heads += 1;
        self.order.fans = f.fans;
        self.order.rest = rest_by(f.rule);
        self.order.top_grams = f.top_grams;
        self.order.top_seconds = f.top_seconds;
    }

    // A dose past the last that there is room for is counted, for 7.
    #[tactic(auto, unfolding(crate::specs::Gathered::with_dose))]
    fn add_dose(&mut self, d: Dose, k: usize)
        requires { self.old.doses < most_records }
        ensures { self.new ≡ with_dose self.old d k }
    {
        self.doses += 1;
        let n = self.order.count;
        if MOST_DOSES <= n {
            return;
        }
        self.order.count = n + 1;
        self.order.doses[n] = d;
        self.places[n] = k;
    }

    // What is gathered, and record k.
    #[tactic(auto, unfolding(crate::specs::Gathered::added))]
    fn add(&mut self, e: Entry, k: usize)
        requires { (self.old.doses < most_records) × (self.old.heads < most_records) }
        ensures { self.new ≡ added self.old k e }
    {
        match e {
            Entry::Fans(f) => self.add_fans(f),
            Entry::Dose(d) => self.add_dose(d, k),
        }
    }
}

// The rest of a rule: "0 lets windows of a bay touch, 1 asks that the later release be at least 300 after the earlier deadline".
fn rest_by(rule: u32) -> u32
    ensures { result ≡ rest_by rule }
{
    if rule == 0 { 0 } else { VALVE_REST }
}

// All records, one after the other, up to the first that is refused.
fn walk(last: u32, bytes: &[u8]) -> Result<Gathered, Refusal>
    requires { length bytes.now ≤ order_room }
    ensures { result ≡ walked_from (read_all (entry_of last) bytes.now) 0 no_records }
{
    let mut s = Gathered::none();
    for k in 0..record_count(bytes) {
        let e = record_at(last, record(bytes, k), k)?;
        s.add(e, k);
    }
    Ok(s)
}

// The second at which the bay of a dose has rested behind it.
fn rested(rest: u32, d: Dose) -> u64
    ensures { result ≡ d.deadline + rest }
{
    u64::from(d.deadline) + u64::from(rest)
}

// Two doses of one bay with less than the rest between their windows; where it is 0, "overlapping windows (touching is allowed)".
fn dose_clash(rest: u32, x: Dose, y: Dose) -> bool
    ensures { result ≡ clash rest (as_dose x) (as_dose y) }
{
    x.bay == y.bay
        && u64::from(y.release) < rested(rest, x)
        && u64::from(x.release) < rested(rest, y)
}

// The first dose before dose k that clashes with it.
fn earlier_clash(o: &Order, k: usize) -> Option<usize>
    requires { k < most_doses }
    ensures { result ≡ earlier_clash o.now.rest o.now k }
{
    let d = o.dose(k);
    for j in 0..k {
        if dose_clash(o.rest, d, o.dose(j)) {
            return Some(j);
        }
    }
    None
}

// The first dose that clashes with an earlier one.
fn first_clash(o: &Order) -> Option<usize>
    requires { o.now.count ≤ most_doses }
    ensures { result ≡ first_clash o.now.rest o.now }
{
    for k in 0..o.count {
        let clash = earlier_clash(o, k);
        if clash.is_some() {
            return Some(k);
        }
    }
    None
}

// "then 6, 7, 8"
fn settle(s: &Gathered) -> Result<Order, Refusal>
    requires { s.now.order.count ≤ most_doses }
    ensures { result ≡ settled s.now }
{
    if s.heads != 1 {
        return Err(Refusal::NotOneFans);
    }
    if MOST_DOSES < s.doses {
        return Err(Refusal::TooManyDoses);
    }
    match first_clash(&s.order) {
        Some(k) => Err(Refusal::Clash(s.places[k])),
        None => Ok(s.order),
    }
}

// The order in any bytes, bays open up to the last that is: "2, then record by record 3, 4, 5 in that order" and 15, "then 6, 7, 8".
pub fn read_order(last: u32, bytes: &[u8]) -> Result<Order, Refusal>
    ensures { ReadFrom last bytes.now result }
{
    if bytes.len() % RECORD_SIZE != 0 || ORDER_ROOM < bytes.len() {
        return Err(Refusal::Length);
    }
    let s = walk(last, bytes)?;
    settle(&s)
}
