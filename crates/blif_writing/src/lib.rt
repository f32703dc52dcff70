// The BLIF text of a network (Quaigh's src/io/blif.rs, `write_blif`, and src/io/utils.rs): definitions and laws, no code.
#![tactic(auto)]
