// The records of an order (document 01, "Records"; document 02, C-16: the rule): F and D, read and written.
ghost use Rattle.std.specs.Prelude.{◌≡◌, ◌+◌, ◌≤◌, length};
ghost use Rattle.model.specs.Records.{record_size, blank_at, fans_parts, dose_parts};
ghost use Rattle.model.specs.Orders.{fans_of, dose_of};
ghost use Rattle.records.specs.Written.{written};
ghost use Rattle.records.specs.Held.{as_fans, as_dose, fans_bytes, dose_bytes};

use crate::kind::{Kind, put_kind};
use crate::number::{blank, put, put_blank, put_pair, read};

// "F (0x46) fans: 1 number of fans, 1 to 8; 4-7 top grams, 8-11 top seconds, each 1 to 1,000,000"; "Byte 2 of F .. names the rule", 0 or 1
#[derive(Clone, Copy)]
pub struct Fans {
    pub fans: u32,
    pub rule: u32,
    pub top_grams: u32,
    pub top_seconds: u32,
}

// "D (0x44) dose: 2-3 bay, 1 to 999; 4-7 release, 0 to 604,799; 8-11 deadline, release+1 to 604,800; 12-15 grams, 1 to 1,000,000"
#[derive(Clone, Copy)]
pub struct Dose {
    pub bay: u32,
    pub release: u32,
    pub deadline: u32,
    pub grams: u32,
}

// Reads an F record.
pub fn fans_in(r: &[u8]) -> Fans
    requires { length r.now ≡ record_size }
    ensures { as_fans result ≡ fans_of r.now }
{
    Fans {
        fans: read::<1>(r, 1),
        rule: read::<1>(r, 2),
        top_grams: read::<4>(r, 4),
        top_seconds: read::<4>(r, 8),
    }
}

// Reads a D record.
pub fn dose_in(r: &[u8]) -> Dose
    requires { length r.now ≡ record_size }
    ensures { as_dose result ≡ dose_of r.now }
{
    Dose {
        bay: read::<2>(r, 2),
        release: read::<4>(r, 4),
        deadline: read::<4>(r, 8),
        grams: read::<4>(r, 12),
    }
}

// "Bytes not named must be zero", in an F record.
pub fn fans_blank(r: &[u8]) -> bool
    requires { length r.now ≡ record_size }
    ensures { result ≡ blank_at fans_parts r.now 0 }
{
    blank(r, 3, 1) && blank(r, 12, 20)
}

// And in a D record.
pub fn dose_blank(r: &[u8]) -> bool
    requires { length r.now ≡ record_size }
    ensures { result ≡ blank_at dose_parts r.now 0 }
{
    blank(r, 1, 1) && blank(r, 16, 16)
}

// Writes an F record at a place.
pub fn put_fans(b: &mut [u8], at: usize, f: Fans)
    requires { at + record_size ≤ length b.old }
    ensures { b.new ≡ written b.old at (fans_bytes (as_fans f)) }
{
    put_kind(b, at, Kind::Fans);
    put::<1>(b, at + 1, f.fans);
    put::<1>(b, at + 2, f.rule);
    put_blank(b, at + 3, 1);
    put_pair(b, at + 4, f.top_grams, f.top_seconds);
    put_blank(b, at + 12, 20);
}

// Writes a D record at a place.
pub fn put_dose(b: &mut [u8], at: usize, d: Dose)
    requires { at + record_size ≤ length b.old }
    ensures { b.new ≡ written b.old at (dose_bytes (as_dose d)) }
{
    put_kind(b, at, Kind::Dose);
    put_blank(b, at + 1, 1);
    put::<2>(b, at + 2, d.bay);
    put_pair(b, at + 4, d.release, d.deadline);
    put::<4>(b, at + 12, d.grams);
    put_blank(b, at + 16, 16);
}
