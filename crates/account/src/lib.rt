// Where the FIFO's bits went. There is no code here: specs/ has the statements, proofs/ their proofs.
#![tactic(auto)]
