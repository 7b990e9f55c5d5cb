//! Schedule tables: when each task runs and is polled in a frame, and by which units of a configuration.
//!
//! A table is used only once `check` has found that it meets every rule.
#![tactic(auto)]

mod rules;
mod table;

pub use table::{
    AGREED_IN, Broken, END_LEAD, GoodTable, HEARING_DELAY, RELAY_LEAD, REPORT_LEAD, Table, check,
    one_broken_rule, plain_table, plain_tables_are_good, positions_run_one_task_at_a_time,
    shed_tasks_are_left_out, slots_are_heard_in_time, tables_are_answered,
    tasks_have_three_executors, tasks_run_after_their_needs, words_have_their_task,
};
