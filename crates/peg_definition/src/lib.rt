// A lookup of the bins nearest a peg; it is defined in specs/.
#![tactic(auto)]
