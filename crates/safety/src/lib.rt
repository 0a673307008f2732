// No code: demands 2 and 3 are theorems about lists of requests, in specs/ and proofs/. They speak of `requested`, which the functions of
// `line_code` promise, and of `step`, what a call comes to by a caller with the right; `stream` says demand 3 of the lines that a session reads.
#![tactic(auto)]
