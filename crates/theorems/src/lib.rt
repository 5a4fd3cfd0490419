// What is proved, on one page: proofs/Theorems.antt. There is no code here.
#![tactic(auto)]
