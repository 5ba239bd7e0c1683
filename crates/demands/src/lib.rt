// The user's three demands as theorems: no code. The statements are types of crate rules
// (specs/Statements.antt), where those of the calls are proved too. Proved here: those of runs; that
// the statements leave nothing open and no room for a fraud; the table K1 to K13; that what the port
// leaves out is harmless; and that every premise can be met. specs/Demands.antt gathers them all, and
// proofs/Demands.antt has its one value.
#![tactic(auto)]
