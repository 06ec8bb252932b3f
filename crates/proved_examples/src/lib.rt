// Document 01's proved examples: one table and one statement, in specs/.
#![tactic(auto)]
