// Records closed up in one row: what they mean, and what is known of them.

#![tactic(auto)]
