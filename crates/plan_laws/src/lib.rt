// Request 02's own sentences about a plan, as theorems of the definitions (specs/Plan.antt). No code.
#![tactic(auto)]
