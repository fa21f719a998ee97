#![tactic(auto)]

// Search and check over a record: the code comes with the record. The theory is in specs/ and proofs/.
