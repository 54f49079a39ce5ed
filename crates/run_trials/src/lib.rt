//! Trials of whole runs: how many Takes they have, and that a job has one answer, whatever the policy, the cut, the
//! pacers, the lanes and the snapshot with which a run begins.
//!
//! It has tests alone, and nothing of it is part of the program.
#![tactic(auto)]

#[cfg(test)]
mod answers;
#[cfg(test)]
mod bounded;
#[cfg(test)]
mod driver;
#[cfg(test)]
mod entering;
#[cfg(test)]
mod inputs;
#[cfg(test)]
mod lanes_agree;
#[cfg(test)]
mod pacers;
#[cfg(test)]
mod policies;
#[cfg(test)]
mod seen;
#[cfg(test)]
mod snapshots;
#[cfg(test)]
mod steps;
