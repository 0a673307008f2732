// No code: what each act of a train on the line comes to, its checks, what it gives and the record after it. Document 01, "Authorities" and
// "What is turned down". The functions are in `acts_code`.
#![tactic(auto)]

use calls::{Refusal, Values};
use train::Train;

// What an act of a train comes to: its checks passed, what it gives and the record after it; or turned down.
pub type Verdict = Result<(Values, Train), Refusal>;
