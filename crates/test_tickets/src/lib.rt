//! Tests of the queue by which workers get tickets.
#![tactic(auto)]

#[cfg(test)]
mod queue;
#[cfg(test)]
mod threads;
