// The volume rule over the definitions: its statement is specs/VolumeRule.antt, its proof ends in proofs/Rule.antt.
#![tactic(auto)]
