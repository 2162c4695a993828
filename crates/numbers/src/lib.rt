// The numbers that document 01 prints with a star, as one table, proved. There is no code here:
// `vectors` runs the rest.
#![tactic(auto)]
