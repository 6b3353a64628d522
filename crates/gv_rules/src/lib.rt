// What the functions of the C library return and leave: definitions and theorems, no function.

#![tactic(auto)]
