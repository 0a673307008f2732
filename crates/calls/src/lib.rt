// No code: what is asked and what is answered, and both in numbers. Document 01, "Authorities", "What is turned down" and "The session
// program"; document 02, (iii). The functions are in `calls_code`.
#![tactic(auto)]

use motion::Order;

// ---- what is asked

// Open: line end, safety distance, speed ceiling V, greatest traction A.
#[derive(Clone, Copy)]
pub struct Opening {
    pub end: u64,
    pub safety: u64,
    pub ceiling: u64,
    pub traction: u64,
}

// Enter: id, head, length in feet, load class, starting request number.
#[derive(Clone, Copy)]
pub struct Entry {
    pub id: u64,
    pub head: u64,
    pub length: u64,
    pub load: u64,
    pub start: u64,
}

// Report: head and speed at the end of a cycle.
#[derive(Clone, Copy)]
pub struct Reading {
    pub head: u64,
    pub speed: u64,
}

// Extend: request number, and the length of track that is asked for.
#[derive(Clone, Copy)]
pub struct Extension {
    pub number: u64,
    pub length: u64,
}

// A call that names a train on the line and leaves it there. Call back names a place.
#[derive(Clone, Copy)]
pub enum Act {
    Report(Reading),
    Extend(Extension),
    CallBack(u64),
    Hold,
    Lift,
}

// A call on a table: enter, an act of the train with an id, take off (id).
#[derive(Clone, Copy)]
pub enum Call {
    Enter(Entry),
    Own(u64, Act),
    TakeOff(u64),
}

// What is asked: a new table, or a call on the one there is.
#[derive(Clone, Copy)]
pub enum Ask {
    Open(Opening),
    OnTable(Call),
}

// A request, as a line makes it: the number of its caller, and what is asked.
#[derive(Clone, Copy)]
pub struct Request {
    pub caller: u64,
    pub ask: Ask,
}

// Numbers in a row: the call code and five more, then the caller.
pub const ROW: usize = 7;

// ---- what is answered

// What is turned down, with document 01's number of each.
#[derive(Clone, Copy)]
pub enum Refusal {
    BadLine = 1,
    OutOfTurn = 2,
    BadSetting = 3,
    BadEntry = 4,
    OnLine = 5,
    LineFull = 6,
    BadHead = 7,
    NoTrain = 8,
    NotAllowed = 9,
    BadRequest = 10,
    OldNumber = 11,
    OtherLength = 12,
    NoTrack = 13,
    BadPlace = 14,
    NotLeaving = 15,
    NoRight = 16,
    Pending = 17,
}

// What an accepted call gives. Entered: B, j and end. Ordered: the order and its reach. Extended: the end, and whether the request
// is a repeat. The other calls: zeros.
#[derive(Clone, Copy)]
pub enum Values {
    Entered(u64, u64, u64),
    Ordered(Order, u64),
    Extended(u64, bool),
    Zeros,
}

// The answer to a call: accepted with what it gives, or refused.
pub type Answer = Result<Values, Refusal>;

// Document 01's number of an answer and its three values.
#[derive(Clone, Copy)]
pub struct Numbers {
    pub number: u64,
    pub first: u64,
    pub second: u64,
    pub third: u64,
}
