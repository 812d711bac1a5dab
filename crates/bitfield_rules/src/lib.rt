// Document 01's rules of the bitfield: its definitions in specs/, their laws in proofs/. There is no code.
#![tactic(auto)]
