// The definitions of reading and writing, computed on document 01's netlists K1 to K13 and on stored texts and networks beside Quaigh's
// answers: no code.
#![tactic(auto)]
