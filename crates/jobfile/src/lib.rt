// The job file: its bytes, what a reader paints, what the salvage tool keeps, and their theory. No code.
#![tactic(auto)]
