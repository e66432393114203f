// The worked run and others in literal texts, settled by computing. There is no code here. They stand apart
// because computing them takes longer than all theorems of `protocol`.
#![tactic(auto)]
