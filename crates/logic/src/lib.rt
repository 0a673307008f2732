// No code: logic and numbers that speak of no train. Proofs by cases on a test, quotients rounded up, tables that follow a rule.
#![tactic(auto)]
