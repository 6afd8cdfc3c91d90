// What a slice that is lent holds at the two moments of a call. No code: see specs/.
#![tactic(auto)]
