// The theory of the lightest net.
// A law is proved only where the contract of a function names it, so each has its own, which does nothing.
ghost use Rattle.graph.specs.Exact.{Exact, SoundWeights, AlwaysSound};
ghost use Rattle.graph.specs.Theorems.{Cut, Cycle, Span, NoRing, Decided};

// The lightest edge that leaves a set of nodes belongs.
pub fn cut_holds()
    ensures { Cut }
{}

// An edge whose ends are joined by other edges that belong does not belong.
pub fn cycle_holds()
    ensures { Cycle }
{}

// Nodes that can be joined at all are joined by edges that belong.
pub fn span_holds()
    ensures { Span }
{}

// No edge that belongs can be left out.
pub fn no_ring_holds()
    ensures { NoRing }
{}

// Whether an edge belongs is decided.
pub fn decided_holds()
    ensures { Decided }
{}

// A text is accepted exactly if it describes a sound list of edges.
pub fn exact_holds()
    ensures { Exact }
{}

// What is sound has weights as a graph's have to be.
pub fn sound_weights_holds()
    ensures { SoundWeights }
{}

// Every list of edges is sound.
pub fn always_sound_holds()
    ensures { AlwaysSound }
{}
