// No code: what a path is stands in specs/, the laws in proofs/.
#![tactic(auto)]
