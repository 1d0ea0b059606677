//! Definitions of the result and the changes of each call, and of the progress of a held call's arguments.
#![tactic(auto)]
