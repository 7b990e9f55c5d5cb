//! What holds of the shared words whatever the order of events.
ghost use Rattle.sift_buffer.specs.Cell.{PackingIsTaken};
ghost use Rattle.sift_buffer.specs.Laws.{FreshIsLawful, EventsKeepLawful};
ghost use Rattle.sift_buffer.specs.Samples.{ConditionsTellApart};

/// What was packed is taken by its own stamp, and by no other.
pub fn packing_is_taken()
    ensures { PackingIsTaken }
{}

/// A core in which nobody has done anything is lawful.
pub fn fresh_is_lawful()
    ensures { FreshIsLawful }
{}

/// Every list of allowed events leads from a lawful core to a lawful one.
pub fn events_keep_the_core_lawful()
    ensures { EventsKeepLawful }
{}

/// A core with something done of each kind is lawful, and each of the six conditions refuses a
/// core.
pub fn conditions_tell_cores_apart()
    ensures { ConditionsTellApart }
{}
