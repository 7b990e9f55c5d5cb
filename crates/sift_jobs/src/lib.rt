//! The commands about missions, each as a job: what its options say, what it has to do, and its replies.
#![tactic(auto)]

mod check;
mod ideal;
mod law;
mod order;
mod plan;
mod run;
mod scenario;
mod trial;
mod votes;

pub use check::CheckJob;
pub use ideal::IdealJob;
pub use law::{fault_is_stated, missions_have_flights, run_is_headlined, run_tells_caught};
pub use order::{Flier, FlightOrder, Flown, Telling, WorkerCount, Workers};
pub use plan::PlanJob;
pub use run::{REPORT, RunJob, version_of};
pub use scenario::GenJob;
pub use trial::TrialJob;
pub use votes::VotesJob;
