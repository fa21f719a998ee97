#![tactic(auto)]

// Every input of the program is a list of calls: a specification with its theory, in specs/ and proofs/. There is no code here.
