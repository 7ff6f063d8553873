// The theorems stand in proofs/: what each public function's contract leaves open. There is no code here.

#![tactic(auto)]
