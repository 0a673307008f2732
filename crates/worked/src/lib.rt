// No code: the worked list, with what the definitions give for it, in specs/ and proofs/. It stands apart from `session`, whose must-fail edits
// would compute it again each time.
#![tactic(auto)]
