// What a link promises.
// A law is proved only where the contract of a function names it, so each has its own, which does nothing.
ghost use Rattle.link.specs.Theorems.{TakenInOrder, NumbersEnd, AllDelivered, CanDeliver};

// What was taken is the beginning of what was given, in order, each once.
pub fn taken_in_order()
    ensures { TakenInOrder }
{}

// Numbers do not wrap, and where they end nothing is taken any more.
pub fn numbers_end()
    ensures { NumbersEnd }
{}

// If the copper goes on delivering, everything given is taken in the end.
pub fn all_delivered()
    ensures { AllDelivered }
{}

// And it can always go on, while numbers last.
pub fn can_deliver()
    ensures { CanDeliver }
{}
