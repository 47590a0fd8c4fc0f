// Points of P1 and P2 at the ticks that document 01 names, and the refusals 10, 11 and 12 at their edges; then pens that are lent and moved on.
#![tactic(auto)]

ghost use Rattle.std.specs.Prelude.{◌+◌, ◌≤◌, length};
ghost use Rattle.model.specs.Answers.{Moves};
ghost use Rattle.draw.specs.Drawing.{as_drawn, as_pen};

use draw::{Pen, Point, Refusal, State};
use records::{Class, Dose, Fans, Slot, put_class};
use std::io;

fn word(rt: &impl Print, text: &str) -> io::Result<()> {
    rt.print(text)
}

fn number(rt: &impl Print, n: u32) -> io::Result<()> {
    print!(rt; "{n} ")
}

fn put_fans(b: &mut [u8], at: usize, fans: u32)
    requires { at + 32 ≤ length b.old }
{
    let f = Fans {
        fans,
        rule: 0,
        top_grams: 1000,
        top_seconds: 1,
    };
    records::put_fans(b, at, f);
}

// A dose that may start at tick 0.
fn put_dose(b: &mut [u8], at: usize, bay: u32, deadline: u32, grams: u32)
    requires { at + 32 ≤ length b.old }
{
    let d = Dose {
        bay,
        release: 0,
        deadline,
        grams,
    };
    records::put_dose(b, at, d);
}

// A slot of a class, from one tick to another. Its numbers stand side by side, as rows of a table.
fn put_slot(b: &mut [u8], at: usize, fan: u32, dose: u32, start: u32, end: u32, c: Class)
    requires { at + 32 ≤ length b.old }
{
    let s = Slot {
        fan,
        dose,
        start_tick: start,
        start_part: 0,
        end_tick: end,
        end_part: 0,
        weight: c.weight,
        time: c.time,
        class: c.number,
    };
    records::put_slot(b, at, s);
}

fn show_state(rt: &impl Print, s: State) -> io::Result<()> {
    match s {
        State::Finished => word(rt, "finished\n"),
        State::Shut => word(rt, "shut\n"),
        State::Idle => word(rt, "idle\n"),
        State::Dosing(fan) => {
            word(rt, "dosing ")?;
            number(rt, fan)?;
            word(rt, "\n")
        }
    }
}

// Amount, state.
fn show_point(rt: &impl Print, p: Point) -> io::Result<()> {
    number(rt, p.amount)?;
    show_state(rt, p.state)
}

// The number of an answer, and its point: of a refusal 0 and Shut.
fn said(drawn: Result<Point, Refusal>) -> (u32, Point) {
    match drawn {
        Ok(p) => (0, p),
        Err(e) => (
            e.numbers().number,
            Point {
                amount: 0,
                state: State::Shut,
            },
        ),
    }
}

// Number, amount, state.
fn show(rt: &impl Print, order: &[u8], plan: &[u8], dose: usize, tick: u32) -> io::Result<()> {
    let (n, p) = said(draw::point_at(order, plan, dose, tick));
    number(rt, n)?;
    show_point(rt, p)
}

// "The pen is lent and moved on by one tick": the pen that comes back, and what it drew.
fn lend(order: &[u8], plan: &[u8], pen: Pen) -> (Pen, Result<Point, Refusal>)
    ensures { Moves order.now plan.now (as_pen pen) (as_drawn result.1) (as_pen result.0) }
{
    let mut lent = pen;
    let drawn = draw::advance(order, plan, &mut lent);
    (lent, drawn)
}

// A pen's step: number, the pen's tick behind it, amount, state. Gives back the pen.
fn step(rt: &impl Print, order: &[u8], plan: &[u8], pen: Pen) -> io::Result<Pen> {
    let (after, drawn) = lend(order, plan, pen);
    let (n, p) = said(drawn);
    number(rt, n)?;
    number(rt, after.tick)?;
    show_point(rt, p)?;
    Ok(after)
}

// P1: one fan; [0,10) 20, [0,4) 16.
fn first_order(b: &mut [u8; 96]) {
    put_fans(b, 0, 1);
    put_dose(b, 32, 1, 10, 20);
    put_dose(b, 64, 2, 4, 16);
}

fn first_plan(p: &mut [u8; 128]) {
    let c = Class {
        number: 1,
        doses: 1,
        weight: 16,
        time: 4,
    };
    let d = Class {
        number: 2,
        doses: 1,
        weight: 20,
        time: 6,
    };
    put_class(p, 0, c);
    put_class(p, 32, d);
    put_slot(p, 64, 1, 1, 0, 4, c);
    put_slot(p, 96, 1, 0, 4, 10, d);
}

// P2: two fans; three of [0,3) 10.
fn second_order(b: &mut [u8; 128]) {
    put_fans(b, 0, 2);
    put_dose(b, 32, 1, 3, 10);
    put_dose(b, 64, 2, 3, 10);
    put_dose(b, 96, 3, 3, 10);
}

fn second_plan(p: &mut [u8; 160]) {
    let c = Class {
        number: 1,
        doses: 3,
        weight: 30,
        time: 6,
    };
    put_class(p, 0, c);
    put_slot(p, 32, 1, 0, 0, 2, c);
    put_slot(p, 64, 1, 1, 2, 3, c);
    put_slot(p, 96, 2, 1, 0, 1, c);
    put_slot(p, 128, 2, 2, 1, 3, c);
}

fn first_points(rt: &impl Print, b: &[u8; 96], p: &[u8; 128]) -> io::Result<()> {
    for tick in [4, 5, 6, 7, 10] {
        show(rt, b, p, 0, tick)?;
    }
    Ok(())
}

// At the ends: the last tick and the one behind it, no such dose, and bytes that are no plan.
fn edges(rt: &impl Print, b: &[u8; 96], p: &[u8; 128]) -> io::Result<()> {
    show(rt, b, p, 1, 604800)?;
    show(rt, b, p, 1, 604801)?;
    show(rt, b, p, 2, 604801)?;
    show(rt, b, b, 0, 0)
}

fn second_points(rt: &impl Print, b: &[u8; 128], p: &[u8; 160]) -> io::Result<()> {
    for tick in 0..4 {
        show(rt, b, p, 1, tick)?;
    }
    Ok(())
}

// Dose 0 of P1 from tick 2 on: Idle until its slot starts at 4.
fn steps(rt: &impl Print, b: &[u8; 96], p: &[u8; 128]) -> io::Result<()> {
    let mut pen = Pen { dose: 0, tick: 2 };
    for _ in 0..5 {
        pen = step(rt, b, p, pen)?;
    }
    Ok(())
}

// The last step, and the one that is refused; then a dose that is not there, bytes that are no plan and bytes that are no order: the pen stays.
fn last_steps(rt: &impl Print, b: &[u8; 96], p: &[u8; 128]) -> io::Result<()> {
    let pen = Pen {
        dose: 1,
        tick: 604799,
    };
    let last = step(rt, b, p, pen)?;
    step(rt, b, p, last)?;
    let none = Pen { dose: 2, tick: 5 };
    step(rt, b, p, none)?;
    let early = Pen { dose: 0, tick: 5 };
    step(rt, b, b, early)?;
    step(rt, p, p, early)?;
    Ok(())
}

fn main(rt: HostRuntime) -> io::Result<()> {
    let rt = &rt;
    let mut b = [0u8; 96];
    first_order(&mut b);
    let mut p = [0u8; 128];
    first_plan(&mut p);
    let mut c = [0u8; 128];
    second_order(&mut c);
    let mut q = [0u8; 160];
    second_plan(&mut q);
    word(rt, "P1\n")?;
    first_points(rt, &b, &p)?;
    word(rt, "P2\n")?;
    second_points(rt, &c, &q)?;
    word(rt, "edges\n")?;
    edges(rt, &b, &p)?;
    word(rt, "pens\n")?;
    steps(rt, &b, &p)?;
    last_steps(rt, &b, &p)
}
