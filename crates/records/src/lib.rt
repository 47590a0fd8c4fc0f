// The records of documents 01 and 02: where a field of an F, a D, a C, an S or an M stands in its bytes is known in this crate alone.
#![tactic(auto)]

mod kind; // kind.rt: what a record is, told by its byte 0
pub mod log_records; // log_records.rt: M
pub mod number; // number.rt: numbers and zeros in bytes
pub mod order_records; // order_records.rt: F and D
pub mod plan; // plan.rt: plan bytes, record by record
pub mod plan_records; // plan_records.rt: C and S

pub use kind::{Kind, kind_of};
pub use log_records::{Meter, meter_blank, meter_in};
pub use order_records::{Dose, Fans, dose_blank, dose_in, fans_blank, fans_in, put_dose, put_fans};
pub use plan::{class_at, is_class, is_slot, kind_at, record, record_count, slot_at};
pub use plan_records::{
    Class, Slot, class_blank, class_in, ends, moment, put_class, put_slot, slot_blank, slot_in,
    starts,
};

// "All records are 32 bytes". A record is lent as the part of some bytes that holds it, and not as an array of 32: that takes a conversion that can fail.
pub const RECORD_SIZE: usize = 32;
