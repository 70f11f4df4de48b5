// The executor and the replay as they stood before the policies, and that with both policies off nothing changed. There is no code here.
#![tactic(auto)]
