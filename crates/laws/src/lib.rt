// Laws about the paper's definitions, for every proof that needs them: all of it is in specs/ and proofs/, and there is no code here.
#![tactic(auto)]
