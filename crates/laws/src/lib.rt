// Why the definitions of om3 are right: laws, in proofs/. There is no code here.
#![tactic(auto)]
