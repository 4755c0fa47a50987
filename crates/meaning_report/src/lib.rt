// What the monthly report is stands in specs/, its theorems in proofs/. There is no code here.
#![tactic(auto)]
