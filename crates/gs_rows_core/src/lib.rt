//! Worked examples of the core: programs that are run out of order, over files in memory.
#![tactic(auto)]

#[cfg(test)]
mod case;
#[cfg(test)]
mod cost;
#[cfg(test)]
mod desk;
#[cfg(test)]
mod law;
#[cfg(test)]
mod left;
#[cfg(test)]
mod orders;
#[cfg(test)]
mod play;
#[cfg(test)]
mod rows;
#[cfg(test)]
mod serial;
#[cfg(test)]
mod shown;
#[cfg(test)]
mod waits;
