// No code: general definitions and laws that the kit lacks, once. Nothing here knows of tables.
#![tactic(auto)]
