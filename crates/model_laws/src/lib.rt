// No code: what holds of the store that `model` defines.
#![tactic(auto)]
