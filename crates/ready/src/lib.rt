// No code: what the checks leave to be known.
#![tactic(auto)]
