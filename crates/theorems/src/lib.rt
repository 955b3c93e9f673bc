// No code: specs/Theorems.antt has, in one record, every theorem that is owed of the crates below.
#![tactic(auto)]
