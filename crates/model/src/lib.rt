// The rules paper as definitions, in specs/, and what is proved of them, in proofs/. Nothing here runs.
#![tactic(auto)]
