// The claims: what is proved, in one file, specs/Claims.antt. There is no code here.
#![tactic(auto)]
