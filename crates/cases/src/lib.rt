// Document 01's starred cases: the table is specs/Table.antt, its one theorem proofs/Cases.antt. There is no code.
#![tactic(auto)]
