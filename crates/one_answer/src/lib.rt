// Theorems alone: nothing is declared here.
#![tactic(auto)]
