// The writer of payloads. What texts mean, and what the writer answers, stands in specs/.
#![tactic(auto)]
