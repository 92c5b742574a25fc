// What the three lent areas hold together: specs/Areas.antt.
#![tactic(auto)]
