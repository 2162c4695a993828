// What goes between the two ends: what the entry device sends comes out of the framer whole, and so
// does every string in which the central's Block stage recognizes something; and the blocks of a
// transaction, in either way of cutting, join to it again. There is no code here.
#![tactic(auto)]
