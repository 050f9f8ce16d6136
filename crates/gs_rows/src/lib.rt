//! Worked examples of whole runs: over disks and links in memory, and over a real folder with real programs.
#![tactic(auto)]

#[cfg(test)]
mod again;
#[cfg(test)]
mod course;
#[cfg(test)]
mod desk;
#[cfg(test)]
mod dialogue;
#[cfg(test)]
mod faults;
#[cfg(test)]
mod forms;
#[cfg(test)]
mod generated;
#[cfg(test)]
mod readers;
#[cfg(test)]
mod real;
#[cfg(test)]
mod rows;
#[cfg(test)]
mod values;
#[cfg(test)]
mod verbs;
#[cfg(test)]
mod whole;
