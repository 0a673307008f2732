// One train: makes its record, works its limit out, judges and answers its reports. Document 01, "Line and consist" and "Orders".
#![tactic(auto)]

ghost use Rattle.std.specs.Prelude.{◌≡◌, true, ◌+◌, ◌^◌, ◌≤◌, ◌<◌};
ghost use Rattle.ranges.specs.Ranges.{greatest_length, greatest_traction};
ghost use Rattle.motion.specs.Orders.{order_cap, reach as reach_under};
ghost use Rattle.motion_code.specs.Offers.{offer};
ghost use Rattle.motion.specs.Bounds.{Bounded};
ghost use Rattle.train.specs.Ranges.{settings_in_range, settings_of};
ghost use Rattle.train.specs.Record.{figures_for, authority_to, fresh_authority, ending_at, wanting, fresh_marks, entering};
ghost use Rattle.train.specs.Track.{steps_of, limit_behind, within_limit};
ghost use Rattle.train.specs.Report.{reach_of, moves, must_brake, order_after, is_penalty, settled, ordered, reported, computable, report_allowed};
ghost use Rattle.train_code.specs.Report.{with_reach};

use brake::Figures;
use calls::{Entry, Opening, Reading};
use motion::{Maxima, Motion, Order};
use motion_code::{Offer, Vehicle};
use train::{Authority, Limit, Marks, Settings, Train};

// A train record and the reach of its order: a report is answered with it.
#[derive(Clone, Copy)]
pub struct Reported {
    pub train: Train,
    pub reach: u64,
}

// ---- ranges

#[tactic(auto, unfolding(train::specs::Ranges::settings_in_range))]
pub fn settings_in_range(o: Opening) -> bool
    ensures { result ≡ settings_in_range o }
{
    ranges::line_end_in_range(o.end)
        && ranges::safety_in_range(o.safety)
        && ranges::ceiling_in_range(o.ceiling)
        && ranges::traction_in_range(o.traction)
}

// What an opening gives is not what a table works with: the latter may grow while trains run.
pub fn settings_of(o: Opening) -> Settings
    ensures { result ≡ settings_of o }
{
    Settings {
        end: o.end,
        safety: o.safety,
        maxima: Maxima {
            ceiling: o.ceiling,
            traction: o.traction,
        },
    }
}

// ---- the limit

// A length in steps of 50 nm. In 16 bits no length overflows.
#[tactic(auto, unfolding(train::specs::Track::steps_of))]
pub fn steps_of(length: u16) -> u64
    ensures { result ≡ steps_of length }
{
    6096000 * u64::from(length)
}

// The limit behind the train a: its rear minus the safety distance, or none where either difference would lie below 0.
#[tactic(auto, unfolding(train::specs::Track::limit_behind))]
pub fn limit_behind(s: Settings, a: Train) -> Limit
    ensures { result ≡ limit_behind s (Some a) }
{
    let rear = a.motion.head.checked_sub(steps_of(a.length))?;
    rear.checked_sub(s.safety)
}

// Whether the place end + more is within a limit; then the sum fits.
pub fn within(limit: Limit, end: u64, more: u64) -> bool
    ensures { (result ≡ within_limit limit (end + more)) × (result ≡ true → end + more < 2 ^ 64) }
{
    limit.is_some_and(|place| end <= place && more <= place - end)
}

// ---- a record, by its parts

// The brake figures that a train enters with, or none.
pub fn figures_for(s: Settings, e: Entry) -> Option<Figures>
    ensures { result ≡ figures_for s e }
{
    brake::figures_of(e.load, e.length)
}

// Every authority with no call back pending is made here: orders are worked out against its end.
pub fn authority_to(end: u64, start: u64, number: u64, length: u64) -> Authority
    ensures { result ≡ authority_to end start number length }
{
    Authority {
        end,
        goal: end,
        start,
        number,
        length,
    }
}

// No track but what the train stands on, and nothing asked for.
pub fn fresh_authority(head: u64, start: u64) -> Authority
    ensures { result ≡ fresh_authority head start }
{
    authority_to(head, start, start, 0)
}

// Another end, and the request number stays, so that a repeat still adds none.
pub fn ending_at(a: Authority, place: u64) -> Authority
    ensures { result ≡ ending_at a place }
{
    authority_to(place, a.start, a.number, a.length)
}

// A pending call back: the place is wanted, and the end stays for now.
pub fn want(a: Authority, place: u64) -> Authority
    ensures { result ≡ wanting a place }
{
    Authority { goal: place, ..a }
}

pub fn fresh_marks() -> Marks
    ensures { result ≡ fresh_marks }
{
    Marks {
        held: false,
        penalty: false,
    }
}

// Enter: standing under full brake. Nothing of an earlier stay counts.
pub fn new_train(e: Entry, k: Figures) -> Train
    requires { e.length ≤ greatest_length }
    ensures { result ≡ entering e k }
{
    Train {
        id: e.id,
        length: e.length as u16,
        figures: k,
        motion: Motion {
            head: e.head,
            speed: 0,
            level: k.full,
        },
        order: Order::Brake,
        authority: fresh_authority(e.head, e.start),
        marks: fresh_marks(),
    }
}

// Where a pending call back ends: at the place that it wants, once the order just given stops the train there, or at the head of a train that
// stands past it. None is pending where orders aim at the end.
#[tactic(auto, unfolding(train::specs::Report::settled, train::specs::Record::is_pending))]
fn settle(a: Authority, standing: bool, head: u64, reach: u64) -> Authority
    ensures { result ≡ settled a standing head reach }
{
    if a.goal == a.end {
        a
    } else if reach <= a.goal {
        ending_at(a, a.goal)
    } else if standing && a.goal < head {
        ending_at(a, head)
    } else {
        a
    }
}

// Report: another motion and order, the mark that they make, and what they make of a pending call back.
fn with_order(x: Train, m: Motion, given: Offer) -> Train
    requires { given.reach ≡ reach_under x.figures m given.order }
    ensures { result ≡ ordered x m given.order }
{
    let standing = motion_code::standing(x.figures, m.speed, m.level);
    Train {
        motion: m,
        order: given.order,
        authority: settle(x.authority, standing, m.head, given.reach),
        marks: Marks {
            penalty: is_penalty(x.figures, m, given.order),
            ..x.marks
        },
        ..x
    }
}

// ---- report

// Whether motion can be worked out from the record.
#[tactic(auto, unfolding(train::specs::Report::computable))]
pub fn is_computable(x: Train) -> bool
    ensures { result ≡ computable x }
{
    motion_code::in_bounds(x.figures, x.motion, motion_code::order_cap(x.order))
}

// The train as its motion is worked out. The cap of its order is within bounds too.
fn vehicle_of(x: Train) -> Vehicle
    requires { computable x ≡ true }
    ensures same { (result.figures ≡ x.figures) × (result.motion ≡ x.motion) }
    ensures cap { order_cap x.order ≤ greatest_traction }
{
    Vehicle {
        figures: x.figures,
        motion: x.motion,
    }
}

// A call back to a place short of it is pending.
pub fn reach_of(x: Train) -> u64
    requires { computable x ≡ true }
    ensures { result ≡ reach_of x }
{
    vehicle_of(x).reach_of(x.order)
}

// The motion after a report, from the worst case of the last order: the level is the one found after the last cycle, whatever was reported.
fn motion_after(worst: Motion, r: Reading) -> Motion
    ensures { result ≡ record worst { head = r.head; speed = r.speed } }
{
    Motion {
        head: r.head,
        speed: r.speed,
        ..worst
    }
}

// Refusal 9. Head and speed are judged each by itself: no further back than the last head, no worse than the worst case of the last order. A
// record that motion cannot be worked out from is refused too: no list of calls leaves one.
#[tactic(auto, unfolding(train::specs::Report::report_allowed, train::specs::Report::allowed))]
pub fn report_allowed(s: Settings, x: Train, r: Reading) -> bool
    ensures { result ≡ report_allowed s x r }
{
    if !is_computable(x) {
        return false;
    }
    let worst = vehicle_of(x).worst_case(x.order);
    x.motion.head <= r.head
        && r.head <= worst.head
        && r.speed <= worst.speed
        && motion_code::in_bounds(x.figures, motion_after(worst, r), s.maxima.traction)
}

// Whether a train moves, that is, does not stand.
#[tactic(auto, unfolding(train::specs::Report::moves))]
fn is_moving(k: Figures, m: Motion) -> bool
    ensures { result ≡ moves k m }
{
    !motion_code::standing(k, m.speed, m.level)
}

// A brake order to a moving train is a penalty brake: it stays on.
#[tactic(auto, unfolding(train::specs::Report::is_penalty))]
fn is_penalty(k: Figures, m: Motion, o: Order) -> bool
    ensures { result ≡ is_penalty k m o }
{
    motion_code::is_brake(o) && is_moving(k, m)
}

// Brake, whatever the track. Neither a lift nor more track ends a penalty brake: only a stand does.
#[tactic(auto, unfolding(train::specs::Report::must_brake))]
fn must_brake(x: Train, m: Motion) -> bool
    ensures { result ≡ must_brake x m }
{
    (x.marks.penalty && is_moving(x.figures, m)) || x.marks.held
}

// A hold acts here, at the next report, and not on the order already given.
#[tactic(auto, unfolding(train::specs::Report::order_after))]
fn order_after(s: Settings, x: Train, m: Motion) -> Offer
    requires { Bounded x.figures m s.maxima.traction }
    ensures { result ≡ offer x.figures m (order_after s x m) }
{
    let after = Vehicle {
        figures: x.figures,
        motion: m,
    };
    if must_brake(x, m) {
        after.offer_of(Order::Brake)
    } else {
        caps_code::order_for(after, s.maxima, x.authority.goal)
    }
}

// The record after a report that is allowed, and its reach, which the search for the order has found.
#[tactic(auto, using(train::proofs::Records::report_passed), unfolding(train::specs::Report::reported))]
pub fn report_on(s: Settings, x: Train, r: Reading) -> Reported
    requires { report_allowed s x r ≡ true }
    ensures { result ≡ with_reach (reported s x r) }
{
    let worst = vehicle_of(x).worst_case(x.order);
    let m = motion_after(worst, r);
    let given = order_after(s, x, m);
    Reported {
        train: with_order(x, m, given),
        reach: given.reach,
    }
}
