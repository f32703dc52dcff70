// The order of the sort: definitions in specs/, theorems in proofs/ (Quaigh's src/network/network.rs: topo_sort).
#![tactic(auto)]
