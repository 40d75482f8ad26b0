// Demand 3: the book, and the single claim over every list of calls. No code.
#![tactic(auto)]
