// Decides each act of a train on the line: its checks, what it gives and the record after it. Document 01, "Authorities" and "What is turned
// down".
#![tactic(auto)]

ghost use Rattle.std.specs.Prelude.{◌≡◌, ◌+◌, ◌^◌, ◌<◌};
ghost use Rattle.train.specs.Record.{authorised};
ghost use Rattle.acts.specs.Acts.{request_in_range, is_old, granted, call_back_allowed, holding, may_leave};
ghost use Rattle.acts.specs.Decide.{reporting, extending, calling_back, decide as decision, verdict};

use acts::Verdict;
use calls::{Act, Extension, Reading, Refusal, Values};
use train::{Authority, Limit, Marks, Settings, Train};

// ---- extend

// No request longer than the line can be granted, so its length is bounded by the line end.
#[tactic(auto, unfolding(acts::specs::Acts::request_in_range))]
fn request_in_range(s: Settings, q: Extension) -> bool
    ensures { result ≡ request_in_range s q }
{
    ranges::number_in_range(q.number) && ranges::in_range(1, s.end, q.length)
}

// Refusal 11. The last accepted number itself is not old: it may be a repeat.
#[tactic(auto, unfolding(acts::specs::Acts::is_old))]
fn is_old(a: Authority, q: Extension) -> bool
    ensures { result ≡ is_old a q }
{
    q.number <= a.start || q.number < a.number
}

// A new request is granted: its length is added, and its number is the last accepted one.
fn grant(x: Train, q: Extension) -> Train
    requires { x.authority.end + q.length < 2 ^ 64 }
    ensures { result ≡ authorised x (granted x.authority q) }
{
    let a = x.authority;
    Train {
        authority: train_code::authority_to(a.end + q.length, a.start, q.number, q.length),
        ..x
    }
}

// ---- call back, hold and lift

// Refusal 14. Any place from the head on may be wanted.
#[tactic(auto, unfolding(acts::specs::Acts::call_back_allowed))]
fn call_back_allowed(x: Train, place: u64) -> bool
    ensures { result ≡ call_back_allowed x place }
{
    train_code::is_computable(x) && ranges::in_range(x.motion.head, x.authority.end, place)
}

// Hold and lift: the mark of a hold alone, which the next report reads. A penalty brake stays on.
fn with_held(x: Train, held: bool) -> Train
    ensures { result ≡ holding x held }
{
    Train {
        marks: Marks { held, ..x.marks },
        ..x
    }
}

// ---- what each act comes to

// Report: closes one cycle, and gets the order for the next.
#[tactic(auto, using(crate::proofs::Rules::reporting))]
fn report(s: Settings, x: Train, r: Reading) -> Verdict
    ensures { result ≡ verdict (reporting s x r) }
{
    if !train_code::report_allowed(s, x, r) {
        return Err(Refusal::NotAllowed);
    }
    let after = train_code::report_on(s, x, r);
    Ok((Values::Ordered(after.train.order, after.reach), after.train))
}

// Extend: a new number adds its length if the new end is within the limit, and the last accepted one again adds none. While a call back is
// pending, orders aim at another place than the end, and no new number is taken.
#[tactic(auto, using(crate::proofs::Rules::extending))]
fn extend(s: Settings, limit: Limit, x: Train, q: Extension) -> Verdict
    ensures { result ≡ verdict (extending s limit x q) }
{
    let a = x.authority;
    if !request_in_range(s, q) {
        return Err(Refusal::BadRequest);
    }
    if is_old(a, q) {
        return Err(Refusal::OldNumber);
    }
    if q.number == a.number {
        if q.length != a.length {
            return Err(Refusal::OtherLength);
        }
        return Ok((Values::Extended(a.end, true), x));
    }
    if a.goal != a.end {
        return Err(Refusal::Pending);
    }
    if !train_code::within(limit, a.end, q.length) {
        return Err(Refusal::NoTrack);
    }
    let y = grant(x, q);
    Ok((Values::Extended(y.authority.end, false), y))
}

// Call back: from the reach on, the end moves to the place at once. Short of it the order already given may carry the train past the place: the
// call back is pending.
#[tactic(auto, using(crate::proofs::Rules::calling_back), unfolding(acts::specs::Acts::called_back))]
fn call_back(x: Train, place: u64) -> Verdict
    ensures { result ≡ verdict (calling_back x place) }
{
    if !call_back_allowed(x, place) {
        return Err(Refusal::BadPlace);
    }
    let authority = if place < train_code::reach_of(x) {
        train_code::want(x.authority, place)
    } else {
        train_code::ending_at(x.authority, place)
    };
    Ok((Values::Zeros, Train { authority, ..x }))
}

// An act of the train x with this limit. Hold is the emergency message, lift its withdrawal: both act from the next report on.
#[tactic(auto, unfolding(calls::specs::Checks::first_of))]
pub fn decide(s: Settings, limit: Limit, x: Train, a: Act) -> Verdict
    ensures { result ≡ verdict (decision s limit x a) }
{
    match a {
        Act::Report(r) => report(s, x, r),
        Act::Extend(q) => extend(s, limit, x, q),
        Act::CallBack(place) => call_back(x, place),
        Act::Hold => Ok((Values::Zeros, with_held(x, true))),
        Act::Lift => Ok((Values::Zeros, with_held(x, false))),
    }
}

// ---- take off

// Refusal 15. Under drive a standing train may start in the coming cycle.
#[tactic(auto, unfolding(acts::specs::Acts::may_leave))]
pub fn may_leave(i: usize, x: Train) -> bool
    ensures { result ≡ may_leave i x }
{
    i == 0
        && motion_code::standing(x.figures, x.motion.speed, x.motion.level)
        && motion_code::is_brake(x.order)
}
