// history: what holds over every list of calls. Definitions and proofs alone (specs/, proofs/); there is no code here.
#![tactic(auto)]
