// The starred cases of document 01, held to the definitions of the crates below: it has no function of its own, only a list and one theorem.
#![tactic(auto)]
