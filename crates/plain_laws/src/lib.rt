// Laws of a plain form's table, whoever makes it; no code.
#![tactic(auto)]
