#![tactic(auto)]

// The protocol is a specification with its theory: specs/ and proofs/. There is no code here.
