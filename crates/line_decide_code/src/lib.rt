// Decides a request on the table of trains: document 01, "Authorities" and "What is turned down"; document 02, (iii). The table is lent, and
// stays as it is: what changes in it is part of the decision. Right and turn are judged before the table is searched.
#![tactic(auto)]

ghost use Rattle.std.specs.Prelude.{◌≡◌};
ghost use Rattle.line.specs.Decide.{refused, accepted, open_decision, decide_on, out_of_turn, decided};
ghost use Rattle.line.specs.Step.{no_table};

use calls::{Act, Ask, Call, Entry, Opening, Refusal, Request, Values};
use line::Decision;
use table::{Change, PLACES, Table};

// A refusal leaves the whole table.
pub fn refuse(r: Refusal) -> Decision
    ensures { result ≡ refused r }
{
    Decision {
        answer: Err(r),
        change: Change::Stay,
    }
}

fn accept(v: Values, c: Change) -> Decision
    ensures { result ≡ accepted v c }
{
    Decision {
        answer: Ok(v),
        change: c,
    }
}

// Open: a new table with no train. A table already there is another one.
#[tactic(auto, unfolding(line::specs::Decide::open_decision, calls::specs::Checks::first_of))]
fn decide_open(o: Opening) -> Decision
    ensures { result ≡ open_decision o }
{
    if !train_code::settings_in_range(o) {
        return refuse(Refusal::BadSetting);
    }
    accept(Values::Zeros, Change::Anew(o))
}

// Enter: behind the last train, standing.
#[tactic(auto, using(brake::proofs::Consist::given_length), unfolding(line::specs::Decide::decide_on, line::specs::Decide::enter_decision, calls::specs::Checks::first_of))]
fn decide_enter(t: &Table, e: Entry) -> Decision
    ensures { result ≡ decide_on t.now (Ask.OnTable (Call.Enter e)) }
{
    if !(ranges::id_in_range(e.id) && ranges::start_in_range(e.start)) {
        return refuse(Refusal::BadEntry);
    }
    let Some(k) = train_code::figures_for(t.settings, e) else {
        return refuse(Refusal::BadEntry);
    };
    if table_code::place_of(t, e.id).is_some() {
        return refuse(Refusal::OnLine);
    }
    if PLACES <= t.count {
        return refuse(Refusal::LineFull);
    }
    let limit = table_code::limit_at(t, t.count);
    if e.head < train_code::steps_of(e.length as u16) || !train_code::within(limit, e.head, 0) {
        return refuse(Refusal::BadHead);
    }
    accept(
        Values::Entered(k.full, k.growth, e.head),
        Change::Add(train_code::new_train(e, k)),
    )
}

// An act of the train with this id.
#[tactic(auto, unfolding(line::specs::Decide::decide_on))]
fn decide_own(t: &Table, id: u64, a: Act) -> Decision
    ensures { result ≡ decide_on t.now (Ask.OnTable (Call.Own id a)) }
{
    let Some(i) = table_code::place_of(t, id) else {
        return refuse(Refusal::NoTrain);
    };
    match acts_code::decide(t.settings, table_code::limit_at(t, i), t.trains[i], a) {
        Err(r) => refuse(r),
        Ok((v, y)) => accept(v, Change::Put(i, y)),
    }
}

// Take off: the first train, standing under brake. The yard's word that its track is clear is taken.
#[tactic(auto, unfolding(line::specs::Decide::decide_on, line::specs::Decide::take_off_decision, calls::specs::Checks::first_of))]
fn decide_take_off(t: &Table, id: u64) -> Decision
    ensures { result ≡ decide_on t.now (Ask.OnTable (Call.TakeOff id)) }
{
    let Some(i) = table_code::place_of(t, id) else {
        return refuse(Refusal::NoTrain);
    };
    if !acts_code::may_leave(i, t.trains[i]) {
        return refuse(Refusal::NotLeaving);
    }
    accept(Values::Zeros, Change::DropFirst)
}

#[tactic(auto, unfolding(line::specs::Decide::decide_on))]
fn decide_on(t: &Table, a: Ask) -> Decision
    ensures { result ≡ decide_on t.now a }
{
    match a {
        Ask::Open(o) => decide_open(o),
        Ask::OnTable(Call::Enter(e)) => decide_enter(t, e),
        Ask::OnTable(Call::Own(id, act)) => decide_own(t, id, act),
        Ask::OnTable(Call::TakeOff(id)) => decide_take_off(t, id),
    }
}

// Whether a request comes out of turn: a call before an accepted opening, or an opening after one.
fn out_of_turn(opened: bool, a: Ask) -> bool
    ensures { result ≡ out_of_turn opened a }
{
    match a {
        Ask::Open(_) => opened,
        Ask::OnTable(_) => !opened,
    }
}

// Any request, before an accepted opening or after one.
#[tactic(auto, unfolding(line::specs::Decide::decided))]
pub fn decide(opened: bool, t: &Table, r: Request) -> Decision
    ensures { result ≡ decided opened t.now r }
{
    if out_of_turn(opened, r.ask) {
        return refuse(Refusal::OutOfTurn);
    }
    // Before all that is judged by the table: who has no right learns nothing of it.
    if !rights::may_ask(r.caller, r.ask) {
        return refuse(Refusal::NoRight);
    }
    decide_on(t, r.ask)
}

// Zeros in place of a table, where no opening has made one.
pub fn no_table() -> Table
    ensures { result ≡ no_table }
{
    table_code::new_table(Opening {
        end: 0,
        safety: 0,
        ceiling: 0,
        traction: 0,
    })
}
