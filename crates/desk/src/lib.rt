// The paper's table of proved examples. There is no code here: specs/ has the table, proofs/ the theorem that every row of it holds.
#![tactic(auto)]
