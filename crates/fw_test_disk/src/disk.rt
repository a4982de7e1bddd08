//! Volumes in memory: what a stop leaves of them, and which of their calls a plan fails.
use crate::calls::{Answer, Call, DONE, FAILS, Round, TOO_LARGE, are_answered, prints};
use crate::ended::{check, check_all};
use fw_disk::*;
use std::alloc::{AllocError, Global};

/// A byte that none of the tables writes.
const MARK: u8 = 170;

/// Which calls of a volume fail.
#[derive(Clone, Copy, Drop)]
enum Plan {
    /// None: the volume is one in memory, of this limit.
    Limited(u8),
    /// One after so many that pass, or each from there on.
    First(u64, Mode),
    /// The call after each of these numbers.
    Series(&'static [u64]),
}

/// A volume is called, stopped, called again, and stopped and called once more.
type Case = (Plan, Choice, Round, Round, Round);

const NO_CALL: Round = (&[], &[]);

/// Goes on with a round where the ones before it were answered as they should be.
fn play(volume: &mut impl Volume, round: Round, played: &mut Result<bool, VolumeFault>) {
    if *played == Ok(true) {
        *played = are_answered(volume, round);
    }
}

/// Whether the calls before and after two stops answer as they should.
fn is_played<V: Stoppable + Drop>(mut volume: V, case: &Case) -> Result<bool, VolumeFault> {
    let mut played = Ok(true);
    play(&mut volume, case.2, &mut played);
    let mut volume = volume.stop();
    play(&mut volume, case.3, &mut played);
    let mut volume = volume.stop();
    play(&mut volume, case.4, &mut played);
    played
}

/// Whether a volume that fails after these numbers of calls answers as it should.
fn is_series_right(
    alloc: Global,
    memory: MemVolume,
    passes: &[u64],
    case: &Case,
) -> Result<bool, VolumeFault> {
    match passes.to_vec(alloc) {
        Ok(passes) => is_played(FaultVolume::series(memory, passes), case),
        Err(_) => Err(VolumeFault::Io),
    }
}

/// Whether a case's calls answer as they should.
fn is_right(alloc: Global, case: &Case) -> Result<bool, VolumeFault> {
    match case.0 {
        Plan::Limited(limit) => { is_played(MemVolume::new(alloc, u64::from(limit), case.1), case) }
        Plan::First(pass, mode) => is_played(
            FaultVolume::new(MemVolume::new(alloc, 100, case.1), pass, mode),
            case,
        ),
        Plan::Series(passes) => {
            is_series_right(alloc, MemVolume::new(alloc, 100, case.1), passes, case)
        }
    }
}

/// The place of the first case whose calls answer otherwise.
fn first_wrong(alloc: Global, cases: &[Case]) -> Result<Option<usize>, VolumeFault> {
    for (place, case) in cases.iter().enumerate() {
        if !is_right(alloc, case)? {
            return Ok(Some(place));
        }
    }
    Ok(None)
}

/// Left is synced as 1 to 6 and then written three times, also over one another and past the end. After that Right is
/// synced as 1 1, and then written once.
const PENDING: Round = (
    &[
        Call::WriteSynced(Side::Left, &[1, 2, 3, 4, 5, 6]),
        Call::Write(Side::Left, 1, &[7, 8]),
        Call::Write(Side::Left, 5, &[9, 9, 9]),
        Call::Write(Side::Left, 2, &[10]),
        Call::Write(Side::Right, 0, &[1, 1]),
        Call::Sync(Side::Right),
        Call::Write(Side::Right, 1, &[2]),
    ],
    &[DONE; 7],
);

const STOPS: &[Case] = &[
    (
        Plan::Limited(100),
        Choice::Old,
        PENDING,
        (
            &[
                Call::Read(Side::Left, &[1, 2, 3, 4, 5, 6]),
                Call::Read(Side::Right, &[1, 1]),
            ],
            &[DONE; 2],
        ),
        NO_CALL,
    ),
    (
        Plan::Limited(100),
        Choice::New,
        PENDING,
        (
            &[
                Call::Read(Side::Left, &[1, 7, 10, 4, 5, 9, 9, 9]),
                Call::Read(Side::Right, &[1, 2]),
            ],
            &[DONE; 2],
        ),
        NO_CALL,
    ),
    (
        Plan::Limited(100),
        Choice::Torn(MARK),
        PENDING,
        (
            &[
                Call::Read(Side::Left, &[1, MARK, MARK, 4, 5, MARK, MARK, MARK]),
                Call::Read(Side::Right, &[1, MARK]),
            ],
            &[DONE; 2],
        ),
        NO_CALL,
    ),
];

#[test]
fn a_stop_leaves_its_choice(rt: HostRuntime) {
    check_all(&rt, first_wrong(rt.alloc(), STOPS));
}

/// A gate of one byte, synced as 0, then opened by a 1 that no sync follows.
const OPENED: Round = (
    &[
        Call::WriteSynced(Side::Right, &[0]),
        Call::Write(Side::Right, 0, &[1]),
    ],
    &[DONE; 2],
);

const IS_0: Round = (&[Call::Read(Side::Right, &[0])], &[DONE]);

const IS_1: Round = (&[Call::Read(Side::Right, &[1])], &[DONE]);

const IS_7: Round = (&[Call::Read(Side::Right, &[7])], &[DONE]);

/// Nothing is pending after a stop, so a second one leaves the same.
const GATES: &[Case] = &[
    (Plan::Limited(100), Choice::Old, OPENED, IS_0, IS_0),
    (Plan::Limited(100), Choice::New, OPENED, IS_1, IS_1),
    (Plan::Limited(100), Choice::Torn(7), OPENED, IS_7, IS_7),
    (Plan::Limited(100), Choice::Torn(1), OPENED, IS_1, IS_1),
];

#[test]
fn a_gate_is_shut_or_open_or_torn(rt: HostRuntime) {
    check_all(&rt, first_wrong(rt.alloc(), GATES));
}

/// Writes of up to 4 bytes in a file of at most 3.
const LIMITED: Round = (
    &[
        Call::Write(Side::Left, 0, &[1, 2]),
        Call::Write(Side::Left, 0, &[7; 4]),
        Call::Write(Side::Left, 1, &[7; 3]),
        Call::Write(Side::Left, 2, &[7; 2]),
        Call::Write(Side::Left, 1, &[7; 2]),
        Call::Write(Side::Left, 2, &[7]),
        Call::Write(Side::Left, 3, &[7]),
        Call::Write(Side::Left, 3, &[]),
        Call::Limit(3),
        Call::Read(Side::Left, &[1, 7, 7]),
    ],
    &[
        DONE, TOO_LARGE, TOO_LARGE, TOO_LARGE, DONE, DONE, TOO_LARGE, DONE, DONE, DONE,
    ],
);

const LIMITS: &[Case] = &[(Plan::Limited(3), Choice::New, LIMITED, NO_CALL, NO_CALL)];

#[test]
fn a_write_ends_at_the_limit_or_is_too_large(rt: HostRuntime) {
    check_all(&rt, first_wrong(rt.alloc(), LIMITS));
}

/// A write, a sync, a read, a write that is no call of a plan since it is too large, and a sync.
const PLANNED: &[Call] = &[
    Call::Write(Side::Left, 0, &[5]),
    Call::Sync(Side::Left),
    Call::Read(Side::Left, &[5]),
    Call::Write(Side::Left, 1, &[0; 100]),
    Call::Sync(Side::Left),
];

const FIRST_FAILS: &[Answer] = &[FAILS, DONE, DONE, TOO_LARGE, DONE];

const SECOND_FAILS: &[Answer] = &[DONE, FAILS, DONE, TOO_LARGE, DONE];

const THIRD_FAILS: &[Answer] = &[DONE, DONE, FAILS, TOO_LARGE, DONE];

const LAST_FAILS: &[Answer] = &[DONE, DONE, DONE, TOO_LARGE, FAILS];

const NONE_FAILS: &[Answer] = &[DONE, DONE, DONE, TOO_LARGE, DONE];

const ALL_FAIL: &[Answer] = &[FAILS, FAILS, FAILS, TOO_LARGE, FAILS];

const THREE_FAIL: &[Answer] = &[DONE, FAILS, FAILS, TOO_LARGE, FAILS];

const TWO_FAIL: &[Answer] = &[DONE, DONE, FAILS, TOO_LARGE, FAILS];

/// Each plan that begins within these calls, and the first after them.
const PLANS: &[Case] = &[
    (
        Plan::First(0, Mode::Once),
        Choice::Old,
        (PLANNED, FIRST_FAILS),
        NO_CALL,
        NO_CALL,
    ),
    (
        Plan::First(0, Mode::After),
        Choice::Old,
        (PLANNED, ALL_FAIL),
        NO_CALL,
        NO_CALL,
    ),
    (
        Plan::First(1, Mode::Once),
        Choice::Old,
        (PLANNED, SECOND_FAILS),
        NO_CALL,
        NO_CALL,
    ),
    (
        Plan::First(1, Mode::After),
        Choice::Old,
        (PLANNED, THREE_FAIL),
        NO_CALL,
        NO_CALL,
    ),
    (
        Plan::First(2, Mode::Once),
        Choice::Old,
        (PLANNED, THIRD_FAILS),
        NO_CALL,
        NO_CALL,
    ),
    (
        Plan::First(2, Mode::After),
        Choice::Old,
        (PLANNED, TWO_FAIL),
        NO_CALL,
        NO_CALL,
    ),
    (
        Plan::First(3, Mode::Once),
        Choice::Old,
        (PLANNED, LAST_FAILS),
        NO_CALL,
        NO_CALL,
    ),
    (
        Plan::First(3, Mode::After),
        Choice::Old,
        (PLANNED, LAST_FAILS),
        NO_CALL,
        NO_CALL,
    ),
    (
        Plan::First(4, Mode::Once),
        Choice::Old,
        (PLANNED, NONE_FAILS),
        NO_CALL,
        NO_CALL,
    ),
    (
        Plan::First(4, Mode::After),
        Choice::Old,
        (PLANNED, NONE_FAILS),
        NO_CALL,
        NO_CALL,
    ),
];

#[test]
fn a_plan_fails_its_calls(rt: HostRuntime) {
    check_all(&rt, first_wrong(rt.alloc(), PLANS));
}

const WRITTEN: &[Call] = &[Call::WriteSynced(Side::Left, &[5])];

/// After a stop nothing fails.
const LEFT_5: Round = (
    &[Call::Read(Side::Left, &[5]), Call::Sync(Side::Left)],
    &[DONE; 2],
);

const LEFT_NONE: Round = (
    &[Call::Read(Side::Left, &[]), Call::Sync(Side::Left)],
    &[DONE; 2],
);

/// A write that fails reaches the volume below, and a sync that fails doesn't.
const FAILED: &[Case] = &[
    (
        Plan::First(0, Mode::After),
        Choice::New,
        (WRITTEN, &[FAILS]),
        LEFT_5,
        NO_CALL,
    ),
    (
        Plan::First(0, Mode::After),
        Choice::Old,
        (WRITTEN, &[FAILS]),
        LEFT_NONE,
        NO_CALL,
    ),
    (
        Plan::First(1, Mode::After),
        Choice::New,
        (WRITTEN, &[FAILS]),
        LEFT_5,
        NO_CALL,
    ),
    (
        Plan::First(1, Mode::After),
        Choice::Old,
        (WRITTEN, &[FAILS]),
        LEFT_NONE,
        NO_CALL,
    ),
    (
        Plan::First(2, Mode::After),
        Choice::Old,
        (WRITTEN, &[DONE]),
        LEFT_5,
        NO_CALL,
    ),
];

#[test]
fn a_failed_call_reaches_the_volume_below_or_not(rt: HostRuntime) {
    check_all(&rt, first_wrong(rt.alloc(), FAILED));
}

/// What is written to Right and not synced stays pending through a read and a sync of Left, and through a sync that fails.
const BOTH: Round = (
    &[
        Call::Write(Side::Right, 0, &[2]),
        Call::Write(Side::Left, 0, &[1]),
        Call::Sync(Side::Left),
        Call::Read(Side::Left, &[1]),
        Call::Sync(Side::Right),
    ],
    &[DONE, DONE, DONE, DONE, FAILS],
);

/// A stop leaves the choice of Right.
const SIDES: &[Case] = &[
    (
        Plan::First(4, Mode::After),
        Choice::Old,
        BOTH,
        (
            &[Call::Read(Side::Left, &[1]), Call::Read(Side::Right, &[])],
            &[DONE; 2],
        ),
        NO_CALL,
    ),
    (
        Plan::First(4, Mode::After),
        Choice::New,
        BOTH,
        (
            &[Call::Read(Side::Left, &[1]), Call::Read(Side::Right, &[2])],
            &[DONE; 2],
        ),
        NO_CALL,
    ),
    (
        Plan::First(4, Mode::After),
        Choice::Torn(MARK),
        BOTH,
        (
            &[
                Call::Read(Side::Left, &[1]),
                Call::Read(Side::Right, &[MARK]),
            ],
            &[DONE; 2],
        ),
        NO_CALL,
    ),
];

#[test]
fn a_side_stays_pending_through_calls_on_the_other(rt: HostRuntime) {
    check_all(&rt, first_wrong(rt.alloc(), SIDES));
}

const SYNCS: &[Call] = &[Call::Sync(Side::Left); 6];

/// A series goes on after a stop: one call passes and one fails, then one passes and one fails again, and then none fails.
const GOES_ON: Case = (
    Plan::Series(&[1, 1]),
    Choice::Old,
    (WRITTEN, &[FAILS]),
    (
        &[
            Call::Read(Side::Left, &[]),
            Call::Sync(Side::Left),
            Call::Sync(Side::Left),
        ],
        &[DONE, FAILS, DONE],
    ),
    NO_CALL,
);

/// The numbers of a series, and which of its first six calls fail.
const SERIES: &[Case] = &[
    (
        Plan::Series(&[]),
        Choice::Old,
        (SYNCS, &[DONE; 6]),
        NO_CALL,
        NO_CALL,
    ),
    (
        Plan::Series(&[0]),
        Choice::Old,
        (SYNCS, &[FAILS, DONE, DONE, DONE, DONE, DONE]),
        NO_CALL,
        NO_CALL,
    ),
    (
        Plan::Series(&[2]),
        Choice::Old,
        (SYNCS, &[DONE, DONE, FAILS, DONE, DONE, DONE]),
        NO_CALL,
        NO_CALL,
    ),
    (
        Plan::Series(&[0, 0, 1]),
        Choice::Old,
        (SYNCS, &[FAILS, FAILS, DONE, FAILS, DONE, DONE]),
        NO_CALL,
        NO_CALL,
    ),
    (
        Plan::Series(&[1, 2]),
        Choice::Old,
        (SYNCS, &[DONE, FAILS, DONE, DONE, FAILS, DONE]),
        NO_CALL,
        NO_CALL,
    ),
    GOES_ON,
];

#[test]
fn a_series_fails_the_call_after_each_number(rt: HostRuntime) {
    check_all(&rt, first_wrong(rt.alloc(), SERIES));
}

/// Whether both faults print as sentences.
fn are_sentences(alloc: Global) -> Result<bool, AllocError> {
    let text = "the write would end past the limit";
    Ok(
        prints(alloc, VolumeFault::Io, "the device failed")?
            && prints(alloc, VolumeFault::TooLarge, text)?,
    )
}

#[test]
fn faults_read_as_sentences(rt: HostRuntime) {
    check(&rt, are_sentences(rt.alloc()));
}
