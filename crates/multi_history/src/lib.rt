// The memory of a plan with counts: what its updates answer, one after another, and what it holds then. There is no code here.
#![tactic(auto)]
