// Trial jobs from two numbers. No code.

#![tactic(auto)]
