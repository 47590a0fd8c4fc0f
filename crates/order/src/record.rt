// One record from its 32 bytes (document 01, "Records" and refusals 3, 4, 5; document 02, C-14: 15, and C-16: the rule).
ghost use Rattle.std.specs.Prelude.{◌≡◌, length};
ghost use Rattle.model.specs.Records.{within, record_size};
ghost use Rattle.model.specs.Orders.{fans_fit, dose_fits, bay_open, entry_of};
ghost use Rattle.records.specs.Held.{as_fans, as_dose};
ghost use Rattle.order.specs.Held.{held_entry};
ghost use Rattle.order.specs.Gathered.{fault_of, fans_entered, dose_entered};

use crate::{Entry, Refusal};
use records::{Dose, Fans, Kind, dose_blank, dose_in, fans_blank, fans_in, kind_of};
use steps::limits::{LAST_RELEASE, LAST_RULE, MOST_BAY, MOST_FANS, MOST_GRAMS, MOST_TOP, WEEK};

fn inside(lo: u32, hi: u32, v: u32) -> bool
    ensures { result ≡ within lo hi v }
{
    lo <= v && v <= hi
}

fn fans_fit(f: Fans) -> bool
    ensures { result ≡ fans_fit (as_fans f) }
{
    inside(1, MOST_FANS, f.fans)
        && f.rule <= LAST_RULE
        && inside(1, MOST_TOP, f.top_grams)
        && inside(1, MOST_TOP, f.top_seconds)
}

// The release is checked before it is raised by one, so that no sum wraps.
fn dose_fits(d: Dose) -> bool
    ensures { result ≡ dose_fits (as_dose d) }
{
    inside(1, MOST_BAY, d.bay)
        && d.release <= LAST_RELEASE
        && inside(d.release + 1, WEEK, d.deadline)
        && inside(1, MOST_GRAMS, d.grams)
}

// A dose of a bay up to the last that is open.
fn bay_open(last: u32, d: Dose) -> bool
    ensures { result ≡ bay_open last (as_dose d) }
{
    d.bay <= last
}

// "4 a byte that must be zero isn't", then "5 a field out of range", then 15 for a bay that is not open, "after 5 itself".
#[tactic(auto, unfolding(crate::specs::Gathered::fault_of))]
fn fault(blank: bool, fits: bool, is_open: bool, k: usize) -> Result<(), Refusal>
    ensures { result ≡ fault_of blank fits is_open k }
{
    if !blank {
        return Err(Refusal::NotBlank(k));
    }
    if !fits {
        return Err(Refusal::OutOfRange(k));
    }
    if !is_open {
        return Err(Refusal::TrialBay(k));
    }
    Ok(())
}

fn fans_entry(r: &[u8], k: usize) -> Result<Entry, Refusal>
    requires { length r.now ≡ record_size }
    ensures { result ≡ fans_entered r.now k }
{
    let f = fans_in(r);
    fault(fans_blank(r), fans_fit(f), true, k)?;
    Ok(Entry::Fans(f))
}

fn dose_entry(last: u32, r: &[u8], k: usize) -> Result<Entry, Refusal>
    requires { length r.now ≡ record_size }
    ensures { result ≡ dose_entered last r.now k }
{
    let d = dose_in(r);
    fault(dose_blank(r), dose_fits(d), bay_open(last, d), k)?;
    Ok(Entry::Dose(d))
}

// Record k from its 32 bytes: "record by record 3, 4, 5 in that order", and 15.
pub fn record_at(last: u32, r: &[u8], k: usize) -> Result<Entry, Refusal>
    requires { length r.now ≡ record_size }
    ensures { result ≡ held_entry (entry_of last r.now k) }
{
    match kind_of(r) {
        Kind::Fans => fans_entry(r, k),
        Kind::Dose => dose_entry(last, r, k),
        _ => Err(Refusal::Kind(k)),
    }
}
