// Rounding to a binary format, over its precision: the theory stands in specs/, and there is no code.
#![tactic(auto)]
