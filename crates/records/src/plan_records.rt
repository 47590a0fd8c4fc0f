// The records of a plan (document 01, "Records"): C and S, read and written; and a slot's moments.
ghost use Rattle.std.specs.Prelude.{◌≡◌, ◌++◌, ◌+◌, ◌*◌, ◌≤◌, length};
ghost use Rattle.model.specs.Records.{record_size, number_bytes, blank_at, class_parts, slot_parts};
ghost use Rattle.model.specs.Plans.{class_of, class_record, plan_record_bytes, slot_of, slot_record};
ghost use Rattle.model.specs.Stands as stands;
ghost use Rattle.records.specs.Kinds.{byte_of_kind};
ghost use Rattle.records.specs.Written.{written};
ghost use Rattle.records.specs.Held.{as_class, as_slot};

use crate::kind::{Kind, put_kind};
use crate::number::{blank, put, put_blank, put_pair, read};

// "C (0x43) class: 1 class number from 1; 2-3 doses in it; 4-7 W; 8-11 P"
#[derive(Clone, Copy)]
pub struct Class {
    pub number: u32,
    pub doses: u32,
    pub weight: u32,
    pub time: u32,
}

// "S (0x53) slot: 1 fan from 1; 2-3 dose; 4-7 start tick; 8-11 start part; 12-15 end tick; 16-19 end part; 20-23 W; 24-27 P; 28 class number"
#[derive(Clone, Copy)]
pub struct Slot {
    pub fan: u32,
    pub dose: u32,
    pub start_tick: u32,
    pub start_part: u32,
    pub end_tick: u32,
    pub end_part: u32,
    pub weight: u32,
    pub time: u32,
    pub class: u32,
}

// A moment in units of 1/W: "A moment is a tick plus part/W".
pub fn moment(tick: u32, part: u32, weight: u32) -> u64
    ensures { result ≡ tick * weight + part }
{
    u64::from(tick) * u64::from(weight) + u64::from(part)
}

// Where a slot starts.
pub fn starts(s: Slot) -> u64
    ensures { result ≡ stands.starts (as_slot s) }
{
    moment(s.start_tick, s.start_part, s.weight)
}

// Where it ends.
pub fn ends(s: Slot) -> u64
    ensures { result ≡ stands.ends (as_slot s) }
{
    moment(s.end_tick, s.end_part, s.weight)
}

// Reads a C record.
pub fn class_in(r: &[u8]) -> Class
    requires { length r.now ≡ record_size }
    ensures { as_class result ≡ class_of r.now }
{
    Class {
        number: read::<1>(r, 1),
        doses: read::<2>(r, 2),
        weight: read::<4>(r, 4),
        time: read::<4>(r, 8),
    }
}

// Reads an S record.
pub fn slot_in(r: &[u8]) -> Slot
    requires { length r.now ≡ record_size }
    ensures { as_slot result ≡ slot_of r.now }
{
    Slot {
        fan: read::<1>(r, 1),
        dose: read::<2>(r, 2),
        start_tick: read::<4>(r, 4),
        start_part: read::<4>(r, 8),
        end_tick: read::<4>(r, 12),
        end_part: read::<4>(r, 16),
        weight: read::<4>(r, 20),
        time: read::<4>(r, 24),
        class: read::<1>(r, 28),
    }
}

// "Bytes not named must be zero", in a C record.
pub fn class_blank(r: &[u8]) -> bool
    requires { length r.now ≡ record_size }
    ensures { result ≡ blank_at class_parts r.now 0 }
{
    blank(r, 12, 20)
}

// And in an S record.
pub fn slot_blank(r: &[u8]) -> bool
    requires { length r.now ≡ record_size }
    ensures { result ≡ blank_at slot_parts r.now 0 }
{
    blank(r, 29, 3)
}

// The first four bytes of a plan's record: its kind, a number in one byte and one in two.
fn put_head(b: &mut [u8], at: usize, kind: Kind, first: u32, second: u32)
    requires { at + 4 ≤ length b.old }
    ensures { b.new ≡ written b.old at (number_bytes 1 (byte_of_kind kind) ++ (number_bytes 1 first ++ number_bytes 2 second)) }
{
    put_kind(b, at, kind);
    put::<1>(b, at + 1, first);
    put::<2>(b, at + 2, second);
}

// Writes a C record at a place.
pub fn put_class(b: &mut [u8], at: usize, c: Class)
    requires { at + record_size ≤ length b.old }
    ensures { b.new ≡ written b.old at (plan_record_bytes (class_record (as_class c))) }
{
    put_head(b, at, Kind::Class, c.number, c.doses);
    put_pair(b, at + 4, c.weight, c.time);
    put_blank(b, at + 12, 20);
}

// Writes an S record at a place.
pub fn put_slot(b: &mut [u8], at: usize, s: Slot)
    requires { at + record_size ≤ length b.old }
    ensures { b.new ≡ written b.old at (plan_record_bytes (slot_record (as_slot s))) }
{
    put_head(b, at, Kind::Slot, s.fan, s.dose);
    put_pair(b, at + 4, s.start_tick, s.start_part);
    put_pair(b, at + 12, s.end_tick, s.end_part);
    put_pair(b, at + 20, s.weight, s.time);
    put::<1>(b, at + 28, s.class);
    put_blank(b, at + 29, 3);
}
