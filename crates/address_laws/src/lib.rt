// What addresses lead to in chunks with distinct numbers, as chunks come and go and objects are put elsewhere or
// marked.
#![tactic(auto)]
