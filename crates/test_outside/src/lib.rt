//! Tests of files and sinks, over memory and over the host, and of shared pages.
#![tactic(auto)]

#[cfg(test)]
mod failing_host;
#[cfg(test)]
mod files;
#[cfg(test)]
mod folder;
#[cfg(test)]
mod pages;
#[cfg(test)]
mod sinks;
