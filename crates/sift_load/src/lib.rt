//! Loading: the mission that the bytes of an input state, or the reply to bytes that state none.
//!
//! The statuses 3 to 7, and their lines, are said here, for every command about a mission.
#![tactic(auto)]

mod loading;

pub use loading::{
    DOCUMENT_LIMIT, MissionJob, NoMission, begin_for_bytes, bytes_state_one_mission, load,
    loading_gives_one, loading_has_own_statuses, read_document,
};
