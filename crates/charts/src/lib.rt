// The flowchart of the lines of a text, as definitions and theorems.
#![tactic(auto)]
