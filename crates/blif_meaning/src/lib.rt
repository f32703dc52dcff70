// What a BLIF model is and what it means, by the Berkeley text: definitions, no code.
#![tactic(auto)]
