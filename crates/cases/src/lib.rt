#![tactic(auto)]

// Document 01's proved cases (a) to (l), specs/Cases.antt, and examples of the table and of soundness, specs/Refusals.antt and SoundExamples.antt.
// There is no code here.
