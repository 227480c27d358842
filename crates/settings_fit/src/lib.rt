// Laws only: what a fit settings file is, and that such a file, and no other, is read, and exactly. The definitions are in specs/, the theorems in proofs/Verdict.antt.
#![tactic(auto)]
