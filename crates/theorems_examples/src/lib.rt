// The marked cases, and examples of both libraries' rules: tables, each with one statement. There is no code here.
#![tactic(auto)]
