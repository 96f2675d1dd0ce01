// The theory has no code: walks, decisions, evidence and the documents handed back stand in specs/ and proofs/.
#![tactic(auto)]
