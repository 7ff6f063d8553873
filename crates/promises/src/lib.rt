// What a customer is promised stands in specs/, and its theorems in proofs/. There is no code here.

#![tactic(auto)]
