//! A history as the list of its stored steps, the oldest first: the definitions that the core and
//! the order of its steps speak of, and what follows from them. It has no functions.
#![tactic(auto)]
