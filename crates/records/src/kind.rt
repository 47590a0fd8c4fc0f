// The kind of a record, byte 0: "F (0x46) fans", "D (0x44) dose", "C (0x43) class", "S (0x53) slot", "M records (0x4D)".
ghost use Rattle.std.specs.Prelude.{◌≡◌, ◌+◌, ◌≤◌, length, get_or};
ghost use Rattle.model.specs.Records.{record_size, number_bytes};
ghost use Rattle.records.specs.Kinds.{Told, byte_of_kind};
ghost use Rattle.records.specs.Written.{written};

use crate::number::put;

// A byte that names none of the five is kept.
#[derive(Clone, Copy, PartialEq, Eq)]
pub enum Kind {
    Fans,
    Dose,
    Class,
    Slot,
    Meter,
    Other(u8),
}

impl From<u8> for Kind {
    ghost from_gives = { λ byte kind. Told kind byte };

    #[tactic(auto, unfolding(crate::specs::Kinds::kind_of_byte))]
    fn from(byte: u8) -> Kind {
        match byte {
            0x46 => Kind::Fans,
            0x44 => Kind::Dose,
            0x43 => Kind::Class,
            0x53 => Kind::Slot,
            0x4D => Kind::Meter,
            _ => Kind::Other(byte),
        }
    }
}

impl From<Kind> for u8 {
    ghost from_gives = { λ kind byte. byte ≡ byte_of_kind kind };

    fn from(kind: Kind) -> u8 {
        match kind {
            Kind::Fans => 0x46,
            Kind::Dose => 0x44,
            Kind::Class => 0x43,
            Kind::Slot => 0x53,
            Kind::Meter => 0x4D,
            Kind::Other(byte) => byte,
        }
    }
}

// The kind of a record.
pub fn kind_of(r: &[u8]) -> Kind
    requires { length r.now ≡ record_size }
    ensures { Told result (get_or r.now 0 0) }
{
    Kind::from(r[0])
}

// Writes a record's kind into its first byte; no other byte changes.
pub fn put_kind(b: &mut [u8], at: usize, kind: Kind)
    requires { at + 1 ≤ length b.old }
    ensures { b.new ≡ written b.old at (number_bytes 1 (byte_of_kind kind)) }
{
    put::<1>(b, at, u32::from(u8::from(kind)));
}
