// The listing of the bench program. Its definition is in specs/.
#![tactic(auto)]
