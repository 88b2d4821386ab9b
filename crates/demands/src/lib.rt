// What the paper's definitions come to, as theorems about them alone: all of it is in proofs/, and there is no code here.
#![tactic(auto)]
