//! Trials of whole commands on a state file: what a run leaves there, and that a run which was stopped at any call of the
//! disk goes on to the same answer.
//!
//! It has tests alone, and nothing of it is part of the program.
#![tactic(auto)]

#[cfg(test)]
mod beside;
#[cfg(test)]
mod chains;
#[cfg(test)]
mod commands;
#[cfg(test)]
mod demos;
#[cfg(test)]
mod disks;
#[cfg(test)]
mod faults;
#[cfg(test)]
mod files;
#[cfg(test)]
mod inputs;
#[cfg(test)]
mod stops;
#[cfg(test)]
mod without;
#[cfg(test)]
mod worked;
