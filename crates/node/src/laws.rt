// What a node promises.
// A law is proved only where the contract of a function names it, so each has its own, which does nothing.
ghost use Rattle.node.specs.Laws.{MarksStay, TestsLightest, NothingLost, UntakenUnchanged, LevelKept, SendsFit, WithinEdges, FreshFit, MarksLast, AlwaysFit};

pub fn marks_stay()
    ensures { MarksStay }
{}

pub fn tests_lightest()
    ensures { TestsLightest }
{}

pub fn nothing_lost()
    ensures { NothingLost }
{}

pub fn untaken_unchanged()
    ensures { UntakenUnchanged }
{}

pub fn level_kept()
    ensures { LevelKept }
{}

pub fn sends_fit()
    ensures { SendsFit }
{}

pub fn within_edges()
    ensures { WithinEdges }
{}

pub fn fresh_fit()
    ensures { FreshFit }
{}

pub fn marks_last()
    ensures { MarksLast }
{}

pub fn always_fit()
    ensures { AlwaysFit }
{}
