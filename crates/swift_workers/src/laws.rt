//! What holds of the calls of a pool. Each function's contract is the law; the functions do nothing (our own).

ghost use Rattle.swift_workers.specs.PoolEnds.{HoldsNothing, WhoEndsLeavesNothing};
ghost use Rattle.swift_workers.specs.Pools.{FirstCauseStays, OneWorkerTakesInOrder, TokensAreKept};
ghost use Rattle.swift_workers.specs.PoolRule.{WhoRestsOwesNothing};

/// No token is lost and none is doubled: of each executor as many were put as were taken and are left.
pub fn tokens_are_kept()
    ensures { TokensAreKept }
{}

/// One worker alone takes the tokens in the order in which they were put.
pub fn one_worker_takes_in_order()
    ensures { OneWorkerTakesInOrder }
{}

/// A run is given up for the first cause that was told.
pub fn first_cause_stays()
    ensures { FirstCauseStays }
{}

/// Where no worker is under way, no seat owes anything, whoever has it.
pub fn at_the_end_none_owes()
    ensures { WhoRestsOwesNothing }
{}

/// A worker that has ended, or sleeps, owes nothing and holds no token.
pub fn who_sleeps_holds_nothing()
    ensures { HoldsNothing }
{}

/// Once each worker has ended or sleeps, each token that was put is one whose turn has ended, or lies in the pool.
pub fn who_ends_leaves_nothing()
    ensures { WhoEndsLeavesNothing }
{}
