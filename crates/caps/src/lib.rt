// No code: the levels of a brake that builds up from nothing, as one list, in specs/ and proofs/. Document 02, (iv). The list, and the search
// that reads it, are in `caps_code`.
#![tactic(auto)]
