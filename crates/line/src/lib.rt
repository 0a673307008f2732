// No code: the calls on the table of trains. Document 01, "Authorities" and "What is turned down"; document 02, (iii). Each names its caller.
// It is decided first, and then the table is changed. A preview of a call is its decision alone: document 02, (v). The functions are in
// `line_decide_code` and `line_code`.
#![tactic(auto)]

use calls::Answer;
use table::{Change, Table};
use train::Train;

// The answer to a request, and what changes in the table.
#[derive(Clone, Copy)]
pub struct Decision {
    pub answer: Answer,
    pub change: Change,
}

// The answer and the table after a call.
#[derive(Clone, Copy)]
pub struct Outcome {
    pub answer: Answer,
    pub table: Table,
}

// What a preview shows: the answer, and the record of the train that the request names, as the table would hold it then.
#[derive(Clone, Copy)]
pub struct Shown {
    pub answer: Answer,
    pub train: Train,
}
