// General laws of lists, stores and tests, in proofs/. They name nothing of the paper, and nothing here runs.
#![tactic(auto)]
