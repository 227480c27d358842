// Nobody waits longer than the timers say: the statement (specs/) and that every accepted broadcast log keeps it (proofs/). Laws only, no code.
#![tactic(auto)]
