// No code: that T2's bound is reached, and that the stretches it speaks of exist.
#![tactic(auto)]
