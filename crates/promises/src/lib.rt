// What reader, writer and updater promise, and that it says one outcome alone: laws only.
#![tactic(auto)]
