// The examples of the paper: specs/ has them all. Nothing runs here.
#![tactic(auto)]
