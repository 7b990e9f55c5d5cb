//! How far clocks may be apart, how far they are, and that their correction keeps it so.
#![tactic(auto)]

mod clocks;

pub use clocks::{
    ClockPlan, admits, ceiling_fits_exactly_where, corrected_offsets_are_close, drifts_add_twice,
    heard_clocks_are_read_well, lead_is_at_most_one, offsets_change_little,
    readers_are_kept_with_margin, skew, skew_is_kept, skew_is_kept_with_margin,
    skew_is_kept_without_faults, skew_is_unique, slack, slack_is_positive, slack_is_unique,
    words_are_read_right,
};
