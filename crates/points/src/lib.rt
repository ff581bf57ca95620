// Document 01's starred reference points, with document 02's, Paper 8, in specs/. There is no code here.
#![tactic(auto)]
