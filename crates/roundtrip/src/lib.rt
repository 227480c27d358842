// Laws only: reading what was written gives the message back. The definitions are in specs/, the theorems in proofs/RoundTrip.antt.
#![tactic(auto)]
