// The kinds and zeros of a plan's records: "classes by number, then slots", and "Bytes not named must be zero".
ghost use Rattle.std.specs.Prelude.{ℕ, ◌/◌, ◌<◌, ◌≤◌, length};
ghost use Rattle.model.specs.Records.{record_at, record_size};
ghost use Rattle.judge_clauses.specs.Tests.{Tells, ClassRow, SlotRow, Leads};

use records::{Kind, is_class, is_slot, kind_at, record_count};

// How many C records stand in front: "classes by number, then slots".
pub fn lead(plan: &[u8]) -> usize
    ensures { Leads plan.now result }
{
    let m = record_count(plan);
    for i in 0..m {
        if kind_at(plan, i) != Kind::Class {
            return i;
        }
    }
    m
}

// "Bytes not named must be zero", in the C records.
pub fn class_rows(plan: &[u8], p: usize) -> bool
    requires { p ≤ length plan.now / record_size }
    ensures { Tells result ((i : ℕ) → i < p → ClassRow (record_at plan.now i)) }
{
    (0..p).all(|i| is_class(plan, i))
}

// Behind the C records stand S records alone, and bytes not named are zero.
pub fn slot_rows(plan: &[u8], p: usize) -> bool
    ensures { Tells result ((i : ℕ) → i < length plan.now / record_size → p ≤ i → SlotRow (record_at plan.now i)) }
{
    (p..record_count(plan)).all(|i| is_slot(plan, i))
}
