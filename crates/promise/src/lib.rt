// What is true of every record of a bank. There is no code here: the definitions stand in specs/ and their proofs in proofs/.
#![tactic(auto)]
