//! What the commands `report`, `clean` and `plan` do over a disk and a sink.
#![tactic(auto)]

mod cleaning;
mod durations;
mod laws;
mod loading;
mod planned;
mod planning;
mod reporting;
mod stops;
#[cfg(test)]
mod tests;

pub use cleaning::clean;
pub use laws::one_store;
pub use planning::plan;
pub use reporting::report;
pub use stops::{BadStore, CleanStop, PlanStop, ReportStop};
