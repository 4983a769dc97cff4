// Definitions and theorems alone: calls that each name a number, made in one order or another.
#![tactic(auto)]
