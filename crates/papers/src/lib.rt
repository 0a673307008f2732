// No code: the papers' own sessions, with what the definitions give for them, in specs/ and proofs/.
#![tactic(auto)]
