// No code: the columns of a session's lines, read and written. Document 01, "The session program". The functions are in `wire_code`.
#![tactic(auto)]

use calls::ROW;

// The columns of an input line: a code, five numbers and the caller.
pub const CALL_COLUMNS: [usize; ROW] = [2, 14, 14, 14, 14, 14, 14];

pub const CALL_WIDTH: usize = CALL_COLUMNS[0] + (ROW - 1) * CALL_COLUMNS[1];

// The columns of a field read so far: spaces, then digits that make a number. Bad: no field begins so.
#[derive(Clone, Copy)]
pub enum Scan {
    Blank,
    Digits(u64),
    Bad,
}
