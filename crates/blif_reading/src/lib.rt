// What reading a BLIF text answers (Quaigh's src/io/blif.rs, `read_blif`): definitions and laws, no code.
#![tactic(auto)]
