// What the supplier gets: a recording with its payload blanked. Definitions and theorems; the code is crate blanking.
#![tactic(auto)]
