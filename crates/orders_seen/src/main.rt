// Orders made here, read and printed: every refusal 2 to 8 and 15 with its place, the ends of every range, and instants. But for those with
// trial bays, as old orders.
#![tactic(auto)]

ghost use Rattle.std.specs.Prelude.{◌+◌, ◌*◌, ◌≤◌, ◌<◌, length};
ghost use Rattle.model.specs.Limits.{most_doses};

use order::Order;
use records::{Dose, Fans};
use std::io;
use steps::limits::{LAST_OPEN_BAY, MOST_BAY, MOST_INTERVALS};

fn word(rt: &impl Print, text: &str) -> io::Result<()> {
    rt.print(text)
}

fn show_dose(rt: &impl Print, d: Dose) -> io::Result<()> {
    print!(rt; "[{} {} {} {} ]", d.bay, d.release, d.deadline, d.grams)
}

fn show_doses(rt: &impl Print, o: &Order) -> io::Result<()>
    requires { o.now.count ≤ most_doses }
{
    for k in 0..o.count {
        show_dose(rt, o.dose(k))?;
    }
    Ok(())
}

fn show_spans(rt: &impl Print, o: &Order) -> io::Result<()>
    requires { o.now.count ≤ most_doses }
{
    let s = interval::instants_of(o);
    for j in 0..MOST_INTERVALS {
        let l = interval::span(&s, j);
        if 0 < l {
            print!(rt; "{l} ")?;
        }
    }
    Ok(())
}

fn show_read(rt: &impl Print, last: u32, bytes: &[u8]) -> io::Result<()> {
    match order::read_order(last, bytes) {
        Err(x) => print!(rt; "refused {} {} \n", x.number(), x.place()),
        Ok(o) => {
            print!(rt;
                "order {} {} {} {} ",
                o.fans, o.rest, o.top_grams, o.top_seconds
            )?;
            show_doses(rt, &o)?;
            word(rt, " spans ")?;
            show_spans(rt, &o)?;
            word(rt, "\n")
        }
    }
}

fn show(rt: &impl Print, bytes: &[u8]) -> io::Result<()> {
    show_read(rt, MOST_BAY, bytes)
}

// As a new order, and as an old one.
fn show_both(rt: &impl Print, bytes: &[u8]) -> io::Result<()> {
    show_read(rt, LAST_OPEN_BAY, bytes)?;
    show_read(rt, MOST_BAY, bytes)
}

fn show_front(rt: &impl Print, bytes: &[u8], len: usize) -> io::Result<()> {
    if len <= bytes.len() {
        show(rt, &bytes[..len])?;
    }
    Ok(())
}

// Here and below the numbers of a record stand side by side, as rows of a table: with the fields named at each call they would be no plainer.
fn put_fans_by(b: &mut [u8], at: usize, rule: u32, fans: u32, grams: u32, seconds: u32)
    requires { at + 32 ≤ length b.old }
{
    let f = Fans {
        fans,
        rule,
        top_grams: grams,
        top_seconds: seconds,
    };
    records::put_fans(b, at, f);
}

fn put_fans(b: &mut [u8], at: usize, fans: u32, grams: u32, seconds: u32)
    requires { at + 32 ≤ length b.old }
{
    put_fans_by(b, at, 0, fans, grams, seconds);
}

fn put_dose(b: &mut [u8], at: usize, bay: u32, release: u32, deadline: u32, grams: u32)
    requires { at + 32 ≤ length b.old }
{
    let d = Dose {
        bay,
        release,
        deadline,
        grams,
    };
    records::put_dose(b, at, d);
}

fn one_fans(rt: &impl Print, fans: u32, grams: u32, seconds: u32) -> io::Result<()> {
    let mut b = [0u8; 32];
    put_fans(&mut b, 0, fans, grams, seconds);
    show(rt, &b)
}

fn one_dose(rt: &impl Print, bay: u32, release: u32, deadline: u32, grams: u32) -> io::Result<()> {
    let mut b = [0u8; 64];
    put_dose(&mut b, 0, bay, release, deadline, grams);
    put_fans(&mut b, 32, 1, 1000, 1);
    show(rt, &b)
}

fn two_doses(rt: &impl Print, bay: u32, r1: u32, d1: u32, r2: u32, d2: u32) -> io::Result<()> {
    let mut b = [0u8; 96];
    put_fans(&mut b, 0, 1, 1000, 1);
    put_dose(&mut b, 32, 7, r1, d1, 10);
    put_dose(&mut b, 64, bay, r2, d2, 10);
    show(rt, &b)
}

fn put_doses(b: &mut [u8], n: usize)
    requires { (n < 64) × (32 * n + 32 ≤ length b.old) }
{
    for k in 0..n {
        put_dose(b, 32 * k + 32, k as u32 + 1, 0, 5, 10);
    }
}

fn many(rt: &impl Print, n: usize, len: usize) -> io::Result<()>
    requires { n < 64 }
{
    let mut b = [0u8; 2048];
    put_fans(&mut b, 0, 1, 1000, 1);
    put_doses(&mut b, n);
    show_front(rt, &b, len)
}

fn spoilt_fans(rt: &impl Print, at: usize) -> io::Result<()>
    requires { at < 32 }
{
    let mut b = [0u8; 64];
    put_dose(&mut b, 0, 1, 0, 5, 10);
    put_fans(&mut b, 32, 0, 1000, 1);
    b[32 + at] = 1;
    show(rt, &b)
}

fn spoilt_dose(rt: &impl Print, at: usize) -> io::Result<()>
    requires { at < 32 }
{
    let mut b = [0u8; 64];
    put_fans(&mut b, 0, 1, 1000, 1);
    put_dose(&mut b, 32, 0, 0, 5, 10);
    b[32 + at] = 1;
    show(rt, &b)
}

fn spoilt(rt: &impl Print) -> io::Result<()> {
    for i in 0..32 {
        spoilt_fans(rt, i)?;
        spoilt_dose(rt, i)?;
    }
    Ok(())
}

fn lengths(rt: &impl Print) -> io::Result<()> {
    word(rt, "lengths 0 31 32 1600 1632, 24 and 25 doses\n")?;
    many(rt, 0, 0)?;
    many(rt, 0, 31)?;
    many(rt, 0, 32)?;
    many(rt, 49, 1600)?;
    many(rt, 24, 1632)?;
    many(rt, 24, 800)?;
    many(rt, 25, 832)
}

fn fans(rt: &impl Print) -> io::Result<()> {
    word(rt, "fans, top grams, top seconds\n")?;
    one_fans(rt, 0, 1, 1)?;
    one_fans(rt, 1, 1, 1)?;
    one_fans(rt, 8, 1000000, 1000000)?;
    one_fans(rt, 9, 1, 1)?;
    one_fans(rt, 1, 0, 1)?;
    one_fans(rt, 1, 1, 0)?;
    one_fans(rt, 1, 1000001, 1)?;
    one_fans(rt, 1, 1, 1000001)
}

fn bays(rt: &impl Print) -> io::Result<()> {
    word(rt, "bay, grams\n")?;
    one_dose(rt, 0, 0, 1, 1)?;
    one_dose(rt, 1, 0, 1, 1)?;
    one_dose(rt, 999, 0, 1, 1)?;
    one_dose(rt, 1000, 0, 1, 1)?;
    one_dose(rt, 1, 0, 1, 0)?;
    one_dose(rt, 1, 0, 1, 1000000)?;
    one_dose(rt, 1, 0, 1, 1000001)
}

fn windows(rt: &impl Print) -> io::Result<()> {
    word(rt, "release, deadline\n")?;
    one_dose(rt, 1, 604799, 604800, 1)?;
    one_dose(rt, 1, 604800, 604800, 1)?;
    one_dose(rt, 1, 4294967295, 604800, 1)?;
    one_dose(rt, 1, 0, 0, 1)?;
    one_dose(rt, 1, 5, 5, 1)?;
    one_dose(rt, 1, 5, 6, 1)?;
    one_dose(rt, 1, 0, 604800, 1)?;
    one_dose(rt, 1, 0, 604801, 1)
}

fn clashes(rt: &impl Print) -> io::Result<()> {
    word(rt, "P12, another bay, the later first, inside\n")?;
    two_doses(rt, 7, 0, 4, 4, 8)?;
    two_doses(rt, 7, 0, 4, 3, 8)?;
    two_doses(rt, 8, 0, 4, 3, 8)?;
    two_doses(rt, 7, 4, 8, 0, 4)?;
    two_doses(rt, 7, 4, 8, 0, 5)?;
    two_doses(rt, 7, 0, 9, 3, 4)
}

fn heads(rt: &impl Print) -> io::Result<()> {
    word(rt, "no F, two F\n")?;
    let mut none = [0u8; 32];
    put_dose(&mut none, 0, 1, 0, 5, 10);
    show(rt, &none)?;
    let mut two = [0u8; 64];
    put_fans(&mut two, 0, 1, 1, 1);
    put_fans(&mut two, 32, 2, 2, 2);
    show(rt, &two)
}

fn trial_dose(rt: &impl Print, bay: u32, grams: u32) -> io::Result<()> {
    let mut b = [0u8; 64];
    put_fans(&mut b, 0, 1, 1000, 1);
    put_dose(&mut b, 32, bay, 0, 1, grams);
    show_both(rt, &b)
}

// A dose of bay 1, one of a trial bay, and then one of bay 2: of the first and the last the grams.
fn trial_between(rt: &impl Print, first: u32, last: u32) -> io::Result<()> {
    let mut b = [0u8; 128];
    put_dose(&mut b, 0, 1, 0, 1, first);
    put_fans(&mut b, 32, 1, 1000, 1);
    put_dose(&mut b, 64, 999, 0, 1, 1);
    put_dose(&mut b, 96, 2, 0, 1, last);
    show_both(rt, &b)
}

fn trials(rt: &impl Print) -> io::Result<()> {
    word(
        rt,
        "trial bays: 899, 900, 999, 1000, and 900 without grams, as a new order and as an old one\n",
    )?;
    trial_dose(rt, 899, 1)?;
    trial_dose(rt, 900, 1)?;
    trial_dose(rt, 999, 1)?;
    trial_dose(rt, 1000, 1)?;
    trial_dose(rt, 900, 0)?;
    word(rt, "in record 2: alone, behind a fault, before one\n")?;
    trial_between(rt, 1, 1)?;
    trial_between(rt, 0, 1)?;
    trial_between(rt, 1, 0)
}

fn two_clashes(rt: &impl Print) -> io::Result<()> {
    word(rt, "two clashes, the first in record 3\n")?;
    let mut b = [0u8; 160];
    put_dose(&mut b, 0, 5, 10, 20, 1);
    put_dose(&mut b, 32, 6, 10, 20, 2);
    put_fans(&mut b, 64, 3, 4, 5);
    put_dose(&mut b, 96, 5, 19, 30, 3);
    put_dose(&mut b, 128, 6, 5, 11, 4);
    show(rt, &b)
}

// Two doses, and behind them an F that names a rule.
fn two_by(
    rt: &impl Print,
    rule: u32,
    bay: u32,
    r1: u32,
    d1: u32,
    r2: u32,
    d2: u32,
) -> io::Result<()> {
    let mut b = [0u8; 96];
    put_dose(&mut b, 0, 7, r1, d1, 10);
    put_dose(&mut b, 32, bay, r2, d2, 10);
    put_fans_by(&mut b, 64, rule, 1, 1000, 1);
    show(rt, &b)
}

// Three doses of a bay by rule 1.
fn three_rested(rt: &impl Print, r2: u32, d2: u32) -> io::Result<()> {
    let mut b = [0u8; 128];
    put_fans_by(&mut b, 0, 1, 1, 1000, 1);
    put_dose(&mut b, 32, 7, 0, 4, 10);
    put_dose(&mut b, 64, 7, 904, 908, 10);
    put_dose(&mut b, 96, 7, r2, d2, 10);
    show(rt, &b)
}

fn rests(rt: &impl Print) -> io::Result<()> {
    word(
        rt,
        "rest 300, 299, 301, the later first, another bay, up to the week's end; rules 0, 2, 255\n",
    )?;
    two_by(rt, 1, 7, 0, 4, 304, 308)?;
    two_by(rt, 1, 7, 0, 4, 303, 308)?;
    two_by(rt, 1, 7, 0, 4, 305, 308)?;
    two_by(rt, 1, 7, 304, 308, 0, 4)?;
    two_by(rt, 1, 7, 304, 308, 0, 5)?;
    two_by(rt, 1, 8, 0, 4, 4, 8)?;
    two_by(rt, 1, 7, 0, 604500, 604799, 604800)?;
    two_by(rt, 0, 7, 0, 4, 4, 8)?;
    two_by(rt, 2, 7, 0, 4, 304, 308)?;
    two_by(rt, 255, 7, 0, 4, 304, 308)?;
    word(
        rt,
        "of three doses the middle one apart, and too close to the first and to the last\n",
    )?;
    three_rested(rt, 304, 604)?;
    three_rested(rt, 303, 604)?;
    three_rested(rt, 304, 605)
}

fn main(rt: HostRuntime) -> io::Result<()> {
    let rt = &rt;
    lengths(rt)?;
    word(rt, "each byte of an F and of a D spoilt\n")?;
    spoilt(rt)?;
    fans(rt)?;
    bays(rt)?;
    windows(rt)?;
    clashes(rt)?;
    heads(rt)?;
    two_clashes(rt)?;
    rests(rt)?;
    trials(rt)
}
