// The twelve worked cases of document 01 that are marked (P), shown of the definitions themselves: no code.

#![tactic(auto)]
