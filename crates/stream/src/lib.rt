// No code: a session's state between lines, and the input cut into lines. Document 01, "The session program". The functions are in
// `stream_code`.
#![tactic(auto)]

use calls::Numbers;
use table::Table;

// The bytes that are kept of a line. One more than a call has: enough to tell that the line is too long.
pub const KEPT_WIDTH: usize = wire::CALL_WIDTH + 1;

// The state between lines: the table that an opening made, and whether one was accepted.
#[derive(Clone, Copy)]
pub struct Session {
    pub table: Table,
    pub opened: bool,
}

// The answer to a line, and the state after it.
#[derive(Clone, Copy)]
pub struct Reply {
    pub answer: Numbers,
    pub session: Session,
}

// A session in the middle of its input: the first bytes of the line that has begun.
#[derive(Clone, Copy)]
pub struct Stream {
    pub session: Session,
    pub bytes: [u8; KEPT_WIDTH],
    pub count: usize,
}
