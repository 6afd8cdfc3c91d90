// The examples are data and a theorem alone: see specs/ and proofs/.
#![tactic(auto)]
