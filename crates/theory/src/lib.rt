// The theory of readings: specs/ has it all. Nothing runs here.
#![tactic(auto)]
