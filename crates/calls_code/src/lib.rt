// Sets answers out in numbers, and reads requests from numbers: document 01, "What is turned down" and "The session program"; document 02, (iii).
// Functions, and no `From`: an impl would stand in `calls`, which has no code.
#![tactic(auto)]

ghost use Rattle.std.specs.Prelude.{◌≡◌};
ghost use Rattle.calls.specs.Answers.{refusal_number, numbers_of};
ghost use Rattle.calls.specs.Requests.{request_of};

use calls::{
    Act, Answer, Ask, Call, Entry, Extension, Numbers, Opening, ROW, Reading, Refusal, Request,
    Values,
};

// ---- answers in numbers

// Answer 0 is acceptance; a value that is not given is 0.
const ZEROS: Numbers = Numbers {
    number: 0,
    first: 0,
    second: 0,
    third: 0,
};

// Document 01's number of a refusal.
fn refusal_number(r: Refusal) -> u64
    ensures { result ≡ refusal_number r }
{
    r as u64
}

// Document 01's number of an answer and its three values.
pub fn numbers_of(a: Answer) -> Numbers
    ensures { result ≡ numbers_of a }
{
    match a {
        Ok(Values::Entered(full, growth, end)) => Numbers {
            first: full,
            second: growth,
            third: end,
            ..ZEROS
        },
        Ok(Values::Ordered(o, reach)) => Numbers {
            first: motion_code::order_number(o),
            second: motion_code::order_cap(o),
            third: reach,
            ..ZEROS
        },
        Ok(Values::Extended(end, repeat)) => Numbers {
            first: end,
            second: u64::from(repeat),
            ..ZEROS
        },
        Ok(Values::Zeros) => ZEROS,
        Err(r) => Numbers {
            number: refusal_number(r),
            ..ZEROS
        },
    }
}

// ---- requests in numbers

// What a row of numbers asks, its code first and its caller last: the numbers that it does not use are 0.
#[tactic(auto, using(crate::proofs::Requests::row_steps), unfolding(calls::specs::Requests::request_of))]
pub fn request_of(row: [u64; ROW]) -> Option<Request>
    ensures { result ≡ request_of row }
{
    let ask = match row {
        [1, end, safety, ceiling, traction, 0, _] => Ask::Open(Opening {
            end,
            safety,
            ceiling,
            traction,
        }),
        [2, id, head, length, load, start, _] => Ask::OnTable(Call::Enter(Entry {
            id,
            head,
            length,
            load,
            start,
        })),
        [3, id, head, speed, 0, 0, _] => Ask::OnTable(Call::Own(
            id,
            Act::Report(Reading { head, speed }),
        )),
        [4, id, number, length, 0, 0, _] => Ask::OnTable(Call::Own(
            id,
            Act::Extend(Extension { number, length }),
        )),
        [5, id, place, 0, 0, 0, _] => Ask::OnTable(Call::Own(id, Act::CallBack(place))),
        [6, id, 0, 0, 0, 0, _] => Ask::OnTable(Call::Own(id, Act::Hold)),
        [7, id, 0, 0, 0, 0, _] => Ask::OnTable(Call::Own(id, Act::Lift)),
        [8, id, 0, 0, 0, 0, _] => Ask::OnTable(Call::TakeOff(id)),
        _ => return None,
    };
    let [.., caller] = row;
    Some(Request { caller, ask })
}
