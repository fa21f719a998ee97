#![tactic(auto)]

// Demand 3 on the bytes: specs/Run.antt states it, proofs/ shows it. There is no code here.
