//! Worked examples of main programs, each carried out by `Main` and answered by a plain world.
#![tactic(auto)]

#[cfg(test)]
mod desk;
#[cfg(test)]
mod faults;
#[cfg(test)]
mod limits;
#[cfg(test)]
mod order;
#[cfg(test)]
mod steps;
#[cfg(test)]
mod uses;
