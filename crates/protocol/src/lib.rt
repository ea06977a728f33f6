// The protocol as a whole: nets of nodes, and what is proved of every net that can be reached.
// A law is proved only where the contract of a function names it, so each has its own, which does nothing.
#![tactic(auto)]

ghost use Rattle.protocol.specs.Theorems.{AlwaysRight, Main, Rests, LevelsLow, FewMessages, ShortQueues, NoStray, NoLateConnect, NeverStuck};
ghost use Rattle.protocol.specs.Runs.{EveryRunEnds, FewMoves, Ends};
ghost use Rattle.protocol.specs.Whole.{WholeMain, WholeRests, WholeLevels, WholeEnds, WholeNeverStuck};

// A branch belongs to the least net, and a rejected edge does not, at every moment.
pub fn always_right()
    ensures { AlwaysRight }
{}

// When some node has halted, just the edges that belong are branches, of all nodes that can be joined with it.
pub fn main_theorem()
    ensures { Main }
{}

// And from then on no mark of these nodes changes.
pub fn rests()
    ensures { Rests }
{}

// A node's level is low: two to its power is at most the number of nodes that it can be joined with.
pub fn levels_low()
    ensures { LevelsLow }
{}

// The messages ever sent are at most five for each node and level, and two for each edge.
pub fn few_messages()
    ensures { FewMessages }
{}

// Every queue is short: eleven messages at most where there are 256 nodes.
pub fn short_queues()
    ensures { ShortQueues }
{}

// No message is ever refused, in a graph of at most 256 nodes.
pub fn no_stray()
    ensures { NoStray }
{}

// Nor does a connect come over an edge that a node has rejected.
pub fn no_late_connect()
    ensures { NoLateConnect }
{}

// Where nobody sleeps and no message can be taken some node has halted.
pub fn never_stuck()
    ensures { NeverStuck }
{}

// Every run ends: each waking and each taking leaves less to do.
pub fn every_run_ends()
    ensures { EveryRunEnds }
{}

// From the start no run has more wakings and takings than messages may be sent and nodes may wake.
pub fn few_moves()
    ensures { FewMoves }
{}

// From every net that can be reached some run leads to the halting of a node.
pub fn ends()
    ensures { Ends }
{}

// The end, where all nodes can be joined.
pub fn whole_main()
    ensures { WholeMain }
{}

// Rest, where all nodes can be joined.
pub fn whole_rests()
    ensures { WholeRests }
{}

// Levels, by the number of all nodes.
pub fn whole_levels()
    ensures { WholeLevels }
{}

// Some run leads to a node that has halted.
pub fn whole_ends()
    ensures { WholeEnds }
{}

// Where nothing is under way and nobody sleeps some node has halted.
pub fn whole_never_stuck()
    ensures { WholeNeverStuck }
{}
