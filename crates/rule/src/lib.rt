// No code: the pruning rule and what a cover promises, in specs/ and proofs/.
#![tactic(auto)]
