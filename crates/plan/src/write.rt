// The records of a plan in the lent buffer: "classes by number, then slots by interval, fan, start".
ghost use Rattle.std.specs.Prelude.{◌≡◌, ◌+◌, ◌*◌, ◌<◌, ◌≤◌, length};
ghost use Rattle.model.specs.Limits.{most_doses};
ghost use Rattle.model.specs.Records.{record_size};
ghost use Rattle.model.specs.Plans.{class_record};
ghost use Rattle.model.specs.Layout.{table_slots};
ghost use Rattle.model.specs.Answers.{overwritten};
ghost use Rattle.records.specs.Held.{as_class};
ghost use Rattle.plan_layout.specs.Growing.{table_in, Fits, Grows};
ghost use Rattle.plan.specs.Held.{class_from, classes_from, bytes_from};

use measure::{set_of, size_of};
use plan_layout::{Filling, Plan, Tables};
use records::Class;

// "1 class number from 1; 2-3 doses in it; 4-7 W; 8-11 P"
fn class_from(t: &Tables, i: usize) -> Class
    requires { (t.now.doses ≤ most_doses) × (i < most_doses) }
    ensures { as_class result ≡ class_from t.now i }
{
    Class {
        number: i as u32 + 1,
        doses: size_of(t.doses, &set_of(&t.class_of, i)) as u32,
        weight: t.weight[i],
        time: t.time[i],
    }
}

// The C records, in front of all others.
fn put_classes(plan: &mut Plan, t: &Tables)
    requires { (t.now.doses ≤ most_doses) × (t.now.classes ≤ most_doses) × Fits t.now.classes plan.old }
    ensures { Grows class_record (classes_from t.now) plan.old plan.new }
{
    for i in 0..t.classes {
        plan.put_class(class_from(t, i));
    }
}

// The whole plan of the arrays, in front of the rest of the buffer. Gives back how many slots it has.
pub fn write_plan(b: &mut [u8], x: &Filling) -> usize
    requires { record_size * (x.now.tables.now.classes + length (table_slots (table_in x.now))) ≤ length b.old }
    ensures slots { result ≡ length (table_slots (table_in x.now)) }
    ensures bytes { b.new ≡ overwritten b.old (bytes_from x.now.tables.now x.now.shares.now x.now.reserved.now) }
{
    let mut plan = Plan {
        bytes: b,
        records: 0,
    };
    put_classes(&mut plan, x.tables);
    plan.lay_all(x);
    plan.records - x.tables.classes
}
