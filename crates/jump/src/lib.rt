// Laws of the jump, in proofs/: three numbers that follow a place from a trixel to its children. No rule names them, and there is no code here.
#![tactic(auto)]
