// The rules of the site call: definitions and theorems, no function.

#![tactic(auto)]
