// The cases of documents 01 and 02, computed from the definitions. They stand in specs/, and what they give is proved in proofs/.
#![tactic(auto)]
