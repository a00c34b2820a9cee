// What users rely on, each a sentence and a theorem (proofs/Claims.antt; of the report's counts proofs/Counts.antt, of the night sheet
// proofs/Nights.antt), shown of the contracts that the calls carry: no code.

#![tactic(auto)]
