// The rules of the region. No code: the definitions stand in specs/, their laws in proofs/.
#![tactic(auto)]
