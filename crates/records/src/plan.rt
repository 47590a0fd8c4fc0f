// Bytes as records, each by its index: a plan's are a C, an S, or neither.
ghost use Rattle.std.specs.Prelude.{◌≡◌, ◌/◌, ◌<◌, length};
ghost use Rattle.model.specs.Records.{record_size, record_at};
ghost use Rattle.records.specs.Held.{as_class, as_slot};
ghost use Rattle.records.specs.Kinds.{Told};
ghost use Rattle.records.specs.Plan.{class_in, slot_in, kind_at, is_class, is_slot};

use crate::plan_records::{Class, Slot, class_blank, class_in, slot_blank, slot_in};
use crate::{Kind, RECORD_SIZE, kind_of};

// How many records there are.
pub fn record_count(plan: &[u8]) -> usize
    ensures { result ≡ length plan.now / record_size }
{
    plan.len() / RECORD_SIZE
}

// The bytes of record i.
pub fn record(plan: &[u8], i: usize) -> &[u8]
    requires { i < length plan.now / record_size }
    ensures { (result.now ≡ record_at plan.now i) × (length result.now ≡ record_size) }
{
    let first = RECORD_SIZE * i;
    &plan[first..first + RECORD_SIZE]
}

// The kind of record i.
pub fn kind_at(plan: &[u8], i: usize) -> Kind
    requires { i < length plan.now / record_size }
    ensures { Told result (kind_at plan.now i) }
{
    kind_of(record(plan, i))
}

// Record i, read as a C.
pub fn class_at(plan: &[u8], i: usize) -> Class
    requires { i < length plan.now / record_size }
    ensures { as_class result ≡ class_in plan.now i }
{
    class_in(record(plan, i))
}

// Record i, read as an S.
pub fn slot_at(plan: &[u8], i: usize) -> Slot
    requires { i < length plan.now / record_size }
    ensures { as_slot result ≡ slot_in plan.now i }
{
    slot_in(record(plan, i))
}

// Whether record i is a C, its bytes not named zero.
pub fn is_class(plan: &[u8], i: usize) -> bool
    requires { i < length plan.now / record_size }
    ensures { result ≡ is_class plan.now i }
{
    kind_at(plan, i) == Kind::Class && class_blank(record(plan, i))
}

// Whether record i is an S, its bytes not named zero.
pub fn is_slot(plan: &[u8], i: usize) -> bool
    requires { i < length plan.now / record_size }
    ensures { result ≡ is_slot plan.now i }
{
    kind_at(plan, i) == Kind::Slot && slot_blank(record(plan, i))
}
