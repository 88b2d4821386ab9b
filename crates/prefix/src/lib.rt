// A bounded prefix of an input decides what a sheet reader says of it: theorems in specs/, no code.
#![tactic(auto)]
