// What a judge over any step table means, and that it is right: laws only (specs/, proofs/), no code.
#![tactic(auto)]
