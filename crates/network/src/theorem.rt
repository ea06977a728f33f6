// The one theorem, on a function of its own: it is proved only where a contract names it.
ghost use Rattle.network.specs.Theorem.{Theorem};

// In every valley, after every list of events that the copper allows: the lamps are right, the end is right and lasts,
// it can always be reached, the messages are few, and nothing overflows.
pub fn boxes_together()
    ensures { Theorem }
{}
