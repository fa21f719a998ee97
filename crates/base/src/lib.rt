#![tactic(auto)]

// Tests, counts and searches over the numbers below a bound: specs/Loops.antt defines them, proofs/ has their laws. There is no code here.
