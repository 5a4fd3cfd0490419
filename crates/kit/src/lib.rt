// The words of the kit's libraries, passed on to the proofs. There is no code here.
#![tactic(auto)]
