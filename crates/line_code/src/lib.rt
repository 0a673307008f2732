// The calls on the table of trains: document 01, "Authorities" and "What is turned down"; document 02, (iii). Each names its caller. It is
// decided first, and then the table is changed. A preview, document 02, (v), is decided alone.
#![tactic(auto)]

ghost use Rattle.std.specs.Prelude.{◌≡◌, true, false};
ghost use Rattle.calls.specs.Requests.{request};
ghost use Rattle.line.specs.Step.{no_table, requested};
ghost use Rattle.line.specs.Preview.{shown_by, shown, needs_opening, previewed};

use calls::{Act, Ask, Call, Entry, Extension, Opening, Reading, Request};
use line::{Decision, Outcome, Shown};
use table::{Change, Table};
use train::Train;

// Any request, before an accepted opening or after one.
pub fn apply(opened: bool, mut t: Table, r: Request) -> Outcome
    ensures { result ≡ requested opened t r }
{
    let d = line_decide_code::decide(opened, &t, r);
    table_code::carry_out(&mut t, d.change);
    Outcome {
        answer: d.answer,
        table: t,
    }
}

pub fn open(caller: u64, o: Opening) -> Outcome
    ensures { result ≡ requested false no_table (request caller (Ask.Open o)) }
{
    let ask = Ask::Open(o);
    apply(false, line_decide_code::no_table(), Request { caller, ask })
}

// Any call but open.
fn call(t: Table, caller: u64, c: Call) -> Outcome
    ensures { result ≡ requested true t (request caller (Ask.OnTable c)) }
{
    let ask = Ask::OnTable(c);
    apply(true, t, Request { caller, ask })
}

pub fn enter(t: Table, caller: u64, e: Entry) -> Outcome
    ensures { result ≡ requested true t (request caller (Ask.OnTable (Call.Enter e))) }
{
    call(t, caller, Call::Enter(e))
}

pub fn report(t: Table, caller: u64, id: u64, r: Reading) -> Outcome
    ensures { result ≡ requested true t (request caller (Ask.OnTable (Call.Own id (Act.Report r)))) }
{
    call(t, caller, Call::Own(id, Act::Report(r)))
}

pub fn extend(t: Table, caller: u64, id: u64, q: Extension) -> Outcome
    ensures { result ≡ requested true t (request caller (Ask.OnTable (Call.Own id (Act.Extend q)))) }
{
    call(t, caller, Call::Own(id, Act::Extend(q)))
}

pub fn call_back(t: Table, caller: u64, id: u64, place: u64) -> Outcome
    ensures { result ≡ requested true t (request caller (Ask.OnTable (Call.Own id (Act.CallBack place)))) }
{
    call(t, caller, Call::Own(id, Act::CallBack(place)))
}

pub fn hold(t: Table, caller: u64, id: u64) -> Outcome
    ensures { result ≡ requested true t (request caller (Ask.OnTable (Call.Own id Act.Hold))) }
{
    call(t, caller, Call::Own(id, Act::Hold))
}

pub fn lift(t: Table, caller: u64, id: u64) -> Outcome
    ensures { result ≡ requested true t (request caller (Ask.OnTable (Call.Own id Act.Lift))) }
{
    call(t, caller, Call::Own(id, Act::Lift))
}

pub fn take_off(t: Table, caller: u64, id: u64) -> Outcome
    ensures { result ≡ requested true t (request caller (Ask.OnTable (Call.TakeOff id))) }
{
    call(t, caller, Call::TakeOff(id))
}

// ---- previews

// The record that a change leaves of the train that was named. By the change and not by a search: after a taking off there is none to find.
fn shown_by(c: Change) -> Train
    ensures { result ≡ shown_by c }
{
    match c {
        Change::Put(_, x) | Change::Add(x) => x,
        Change::Stay | Change::DropFirst | Change::Anew(_) => table_code::blank_train(),
    }
}

// What is shown of a request that was decided.
pub fn show(d: Decision) -> Shown
    ensures { result ≡ shown d }
{
    Shown {
        answer: d.answer,
        train: shown_by(d.change),
    }
}

// Whether an opening has to come before what is asked.
pub fn needs_opening(a: Ask) -> bool
    ensures { result ≡ needs_opening a }
{
    matches!(a, Ask::OnTable(_))
}

// What any request would come to on a copy of the table. It is decided alone: no table is changed, and none comes back.
pub fn preview(t: Table, r: Request) -> Shown
    ensures { result ≡ previewed t r }
{
    show(line_decide_code::decide(needs_opening(r.ask), &t, r))
}
