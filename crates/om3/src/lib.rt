// Documents 01 and 02 as definitions, in specs/, and their numbers, computed in proofs/. There is no code here.
#![tactic(auto)]
