// A second reading of the rules, compared with the definitions of `paper`: all of it is in specs/, and there is no code here.
#![tactic(auto)]
