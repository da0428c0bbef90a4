// The rules of a party, of its turns over the region and of the bench. No code: the definitions stand in specs/.
#![tactic(auto)]
