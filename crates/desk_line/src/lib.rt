// No code: a line at the desk. The desk is a program beside the session, for people and for tests: it has the session's calls, previews of them,
// and shows the record of the train that a line names. No paper asks for it. The functions are in `desk_line_code`.
#![tactic(auto)]

use calls::Request;
use line::Shown;
use stream::Session;

// What a line asks: a request that is made, or one that a preview tries.
#[derive(Clone, Copy)]
pub enum DeskAsk {
    Made(Request),
    Tried(Request),
}

// What a line comes to: what is shown of it, and the state after it.
#[derive(Clone, Copy)]
pub struct DeskReply {
    pub shown: Shown,
    pub session: Session,
}

// Numbers in a record, as it is shown.
pub const RECORD: usize = 16;
