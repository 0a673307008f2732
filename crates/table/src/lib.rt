// No code: the table of trains, 32 places, and its changes. The functions are in `table_code`.
#![tactic(auto)]

use calls::Opening;
use train::{Settings, Train};

pub const PLACES: usize = 32;

// The trains on the line are the first `count` records, front train first.
#[derive(Clone, Copy)]
pub struct Table {
    pub trains: [Train; PLACES],
    pub settings: Settings,
    pub count: usize,
}

// What a call changes: nothing, the record at a place, a train behind the last, the first train gone, or another table with no train, as it
// was opened.
#[derive(Clone, Copy)]
pub enum Change {
    Stay,
    Put(usize, Train),
    Add(Train),
    DropFirst,
    Anew(Opening),
}
