// The run of both ends over a line that may damage what it carries, as a definition, and demand 3
// proved of it. There is no code here: `call` runs it.
#![tactic(auto)]
