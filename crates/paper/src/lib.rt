// The rules as definitions: all of it is in specs/, and there is no code here. What the definitions are tried on is in proofs/.
#![tactic(auto)]
