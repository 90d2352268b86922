// Islands as connected sets: definitions and laws, no code.
#![tactic(auto)]
