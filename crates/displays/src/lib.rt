// Displays that take a publisher's files from a cable: laws only.
#![tactic(auto)]
