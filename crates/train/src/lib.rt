// No code: one train's record, its limit, and how a report is judged and answered. Document 01, "Line and consist" and "Orders". The functions
// are in `train_code`.
#![tactic(auto)]

use brake::Figures;
use motion::{Maxima, Motion, Order};

// Settings that a table works with: line end, safety distance, and the maxima of every train's motion, V and A.
#[derive(Clone, Copy)]
pub struct Settings {
    pub end: u64,
    pub safety: u64,
    pub maxima: Maxima,
}

// The stretch of track that a train is lent. The end is the end of authority. The goal is the place that orders are worked out against: the
// place that a pending call back wants, or the end where none is pending. The number is the last accepted request number, and length is
// the one that it asked for; before the first one they are the starting number and 0.
#[derive(Clone, Copy)]
pub struct Authority {
    pub end: u64,
    pub goal: u64,
    pub start: u64,
    pub number: u64,
    pub length: u64,
}

// What calls have marked a train with: a hold, and a penalty brake, which stays on until the train stands.
#[derive(Clone, Copy)]
pub struct Marks {
    pub held: bool,
    pub penalty: bool,
}

// A train record. The length is in feet.
#[derive(Clone, Copy)]
pub struct Train {
    pub id: u64,
    pub length: u16,
    pub figures: Figures,
    pub motion: Motion,
    pub order: Order,
    pub authority: Authority,
    pub marks: Marks,
}

// A train's limit: a place, or none, where not even 0 is within it.
pub type Limit = Option<u64>;
