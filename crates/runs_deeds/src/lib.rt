// Runs that hold commits beside plain edits. No code.

#![tactic(auto)]
