// The notation of plans as text: its rows, what a text says, its names, and its mapping to a plan image. Definitions and theorems only.
#![tactic(auto)]
