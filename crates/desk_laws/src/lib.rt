// Definitions and theorems alone: the desk's calls made in turn, and what is proved of them (demand 3, and list).
#![tactic(auto)]
