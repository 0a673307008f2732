// Who may ask what: document 02, (iii). The right is judged by the caller's number, the kind of call and the id that it names. No table is
// at hand here.
#![tactic(auto)]

ghost use Rattle.std.specs.Prelude.{◌≡◌};
ghost use Rattle.rights.specs.Rights.{is_train, may_ask};

use calls::{Act, Ask, Call};

// The callers that are no train.
const DISPATCHER: u64 = 0;

const YARD: u64 = 70000;

// Whether the caller is the train of this id, which calls for itself.
fn is_train(id: u64, caller: u64) -> bool
    ensures { result ≡ is_train id caller }
{
    ranges::id_in_range(caller) && caller == id
}

// A train reports and extends; the dispatcher calls back, holds and lifts.
#[tactic(auto, unfolding(crate::specs::Rights::may_ask))]
fn may_act(caller: u64, id: u64, a: Act) -> bool
    ensures { result ≡ may_ask caller (Ask.OnTable (Call.Own id a)) }
{
    match a {
        Act::Report(_) => is_train(id, caller),
        Act::Extend(_) => is_train(id, caller),
        Act::CallBack(_) => caller == DISPATCHER,
        Act::Hold => caller == DISPATCHER,
        Act::Lift => caller == DISPATCHER,
    }
}

// The yard enters and takes off.
#[tactic(auto, unfolding(crate::specs::Rights::may_ask))]
fn may_call(caller: u64, c: Call) -> bool
    ensures { result ≡ may_ask caller (Ask.OnTable c) }
{
    match c {
        Call::Enter(_) => caller == YARD,
        Call::Own(id, a) => may_act(caller, id, a),
        Call::TakeOff(_) => caller == YARD,
    }
}

// Whether the caller with this number has the right. The dispatcher opens.
#[tactic(auto, unfolding(crate::specs::Rights::may_ask))]
pub fn may_ask(caller: u64, a: Ask) -> bool
    ensures { result ≡ may_ask caller a }
{
    match a {
        Ask::Open(_) => caller == DISPATCHER,
        Ask::OnTable(c) => may_call(caller, c),
    }
}
