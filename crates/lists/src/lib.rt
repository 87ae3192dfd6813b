// Words that all specifications share, and their laws: entries of lists, tests over the numbers below n. No code.
#![tactic(auto)]
