// What a station promises.
// A law is proved only where the contract of a function names it, so each has its own, which does nothing.
ghost use Rattle.station.specs.Laws.{InboxesCalm, NothingForgotten, AcknowledgedIsHeld, RefusedChangesNothing, MarksByMessages};

// Once the inboxes are worked off, whatever still waits has to wait.
pub fn inboxes_calm()
    ensures { InboxesCalm }
{}

// Neither waking nor working loses what a link has to hand over, or its numbers.
pub fn nothing_forgotten()
    ensures { NothingForgotten }
{}

// What is acknowledged stands in the new state.
pub fn acknowledged_is_held()
    ensures { AcknowledgedIsHeld }
{}

// What is refused by its bytes, its number or its sender changes nothing.
pub fn refused_changes_nothing()
    ensures { RefusedChangesNothing }
{}

// No event turns a lamp back.
pub fn marks_by_messages()
    ensures { MarksByMessages }
{}
