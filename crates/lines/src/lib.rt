// The printers' texts, written into a lent buffer (document 01, "The plan printer"; document 02, C-15).
#![tactic(auto)]

mod text; // text.rt: a text that grows in a lent buffer

ghost use Rattle.std.specs.Prelude.{◌+◌, ◌*◌, ◌/◌, ◌<◌, ◌≤◌, length};
ghost use Rattle.model.specs.Limits.{order_numbers};
ghost use Rattle.model.specs.Records.{record_at, record_size};
ghost use Rattle.records.specs.Held.{as_class, as_slot};
ghost use Rattle.lines.specs.Text.{class_text, slot_text, total_text, refused_text, record_text, records_text, plan_text, met_text, refusals_text, totals_text, season_text, Put};
ghost use Rattle.lines.specs.Adding.{Adds, Fits};

use records::{Class, Kind, Slot, class_at, kind_at, slot_at};
use steps::limits::ORDER_NUMBERS;
use text::Text;

impl Text<'_> {
    // "`class` number, doses, W, P"
    #[tactic(auto, unfolding(crate::specs::Text::class_text))]
    fn put_class(&mut self, c: Class)
        requires { Fits 160 self.old }
        ensures { Adds (class_text (as_class c)) self.old self.new }
    {
        self.put_line(
            b"class",
            &[
                u64::from(c.number),
                u64::from(c.doses),
                u64::from(c.weight),
                u64::from(c.time),
            ],
        );
    }

    // "`slot` fan, dose, start tick, part, end tick, part, class"
    #[tactic(auto, unfolding(crate::specs::Text::slot_text))]
    fn put_slot(&mut self, s: Slot)
        requires { Fits 160 self.old }
        ensures { Adds (slot_text (as_slot s)) self.old self.new }
    {
        self.put_line(
            b"slot",
            &[
                u64::from(s.fan),
                u64::from(s.dose),
                u64::from(s.start_tick),
                u64::from(s.start_part),
                u64::from(s.end_tick),
                u64::from(s.end_part),
                u64::from(s.class),
            ],
        );
    }

    // The line of record i of a plan, by its kind.
    fn put_record(&mut self, plan: &[u8], i: usize)
        requires there { i < length plan.now / record_size }
        requires room { Fits 160 self.old }
        ensures { Adds (record_text (record_at plan.now i)) self.old self.new }
    {
        match kind_at(plan, i) {
            Kind::Class => self.put_class(class_at(plan, i)),
            _ => self.put_slot(slot_at(plan, i)),
        }
    }

    // The lines of the first n records of a plan.
    fn put_records(&mut self, plan: &[u8], n: usize)
        requires there { record_size * n ≤ length plan.now }
        requires room { Fits (160 * n) self.old }
        ensures { Adds (records_text plan.now n) self.old self.new }
    {
        for i in 0..n {
            self.put_record(plan, i);
        }
    }

    // "`total` classes, slots"
    #[tactic(auto, unfolding(crate::specs::Text::total_text))]
    fn put_total(&mut self, classes: usize, slots: usize)
        requires { Fits 160 self.old }
        ensures { Adds (total_text classes slots) self.old self.new }
    {
        self.put_line(b"total", &[classes as u64, slots as u64]);
    }

    // "`refused` number place, and for 9 also the set, W, P"
    #[tactic(auto, unfolding(crate::specs::Text::refused_text))]
    fn put_refused(&mut self, number: u64, place: u64, set: u64, weight: u64, time: u64)
        requires { Fits 160 self.old }
        ensures { Adds (refused_text number place set weight time) self.old self.new }
    {
        if number == 9 {
            self.put_line(b"refused", &[number, place, set, weight, time]);
        } else {
            self.put_line(b"refused", &[number, place]);
        }
    }

    // "a line of number and count for each refusal met"
    #[tactic(auto, using(crate::proofs::Adding::adds_none), unfolding(crate::specs::Text::met_text))]
    fn put_met(&mut self, number: usize, count: u32)
        requires { Fits 42 self.old }
        ensures { Adds (met_text number count) self.old self.new }
    {
        if count != 0 {
            self.put_bare_line(number as u64, &[u64::from(count)]);
        }
    }

    // These lines, the numbers rising.
    fn put_refusals(&mut self, refused: [u32; ORDER_NUMBERS])
        requires { Fits (42 * order_numbers) self.old }
        ensures { Adds (refusals_text refused) self.old self.new }
    {
        for (number, count) in refused.iter().enumerate() {
            self.put_met(number, *count);
        }
    }

    // "grams, fan-seconds, then W and P on one line"
    fn put_totals(&mut self, grams: u64, seconds: u64, weight: u32, time: u32)
        requires { Fits 126 self.old }
        ensures { Adds (totals_text grams seconds weight time) self.old self.new }
    {
        self.put_bare_line(grams, &[]);
        self.put_bare_line(seconds, &[]);
        self.put_bare_line(u64::from(weight), &[u64::from(time)]);
    }
}

// The text of a plan, from the buffer's first byte on: a line for each class and slot, and the total. Gives back its length.
pub fn print_plan(plan: &[u8], classes: usize, slots: usize, out: &mut [u8]) -> usize
    requires { (record_size * (classes + slots) ≤ length plan.now) × (160 * (classes + slots + 1) ≤ length out.old) }
    ensures { Put (plan_text plan.now classes slots) out.old 0 out.new result }
{
    let mut text = Text::new(out);
    text.put_records(plan, classes + slots);
    text.put_total(classes, slots);
    text.end
}

// The text of a refusal: "`refused` number place, and for 9 also the set, W, P". Gives back its length. The numbers come one by one, here and in
// `put_refused`: this crate knows no crate that has them in one value.
pub fn print_refusal(
    number: u64,
    place: u64,
    set: u64,
    weight: u64,
    time: u64,
    out: &mut [u8],
) -> usize
    requires { 160 ≤ length out.old }
    ensures { Put (refused_text number place set weight time) out.old 0 out.new result }
{
    let mut text = Text::new(out);
    text.put_refused(number, place, set, weight, time);
    text.end
}

// The text of a season's figures, one figure a line, from the buffer's first byte on. Gives back its length. The figures come one by one: this
// crate knows no crate that has a season, and a struct of its own would be filled from one only to be taken apart.
pub fn print_season(
    accepted: u32,
    refused: [u32; ORDER_NUMBERS],
    grams: u64,
    seconds: u64,
    weight: u32,
    time: u32,
    out: &mut [u8],
) -> usize
    requires { 42 * (order_numbers + 4) ≤ length out.old }
    ensures { Put (season_text accepted refused grams seconds weight time) out.old 0 out.new result }
{
    let mut text = Text::new(out);
    text.put_bare_line(u64::from(accepted), &[]);
    text.put_refusals(refused);
    text.put_totals(grams, seconds, weight, time);
    text.end
}
