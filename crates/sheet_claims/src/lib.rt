// Claims only: see specs/.
#![tactic(auto)]
