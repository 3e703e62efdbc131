// The calls on sessions as both libraries export them: their MIR, with which each library's functions are compared. No code.
#![tactic(auto)]
