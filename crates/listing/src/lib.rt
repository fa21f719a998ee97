#![tactic(auto)]

// The lists of a skip graph in their order and their text: a specification with its theory, in specs/ and proofs/. There is no code here.
