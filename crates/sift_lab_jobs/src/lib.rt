//! The commands about laboratories, each as a job: units that lie about what they heard, and clocks that show anything.
#![tactic(auto)]

mod labs;

pub use labs::{ByzJob, ClocksJob, no_skew_is_over_the_bound, stated_byz_plans_agree};
