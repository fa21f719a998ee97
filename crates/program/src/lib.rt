#![tactic(auto)]

// What the program `lots` does: a specification with its theory, in specs/ and proofs/. There is no code here.
