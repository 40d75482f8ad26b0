// One law for each refusal, what an accepted call leaves, and what a refusal that `?` hands on leaves: what the public functions' proofs cite. No code.
#![tactic(auto)]
