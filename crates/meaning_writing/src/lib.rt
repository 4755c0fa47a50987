// What writing, the strict test and the edit mean stands in specs/, its laws and theorems in proofs/. There is no code here.
#![tactic(auto)]
