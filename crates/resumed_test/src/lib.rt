// What holds of a test that goes on after it was saved and read back (saved 4, 5): theorems only, no code.

#![tactic(auto)]
