//! Sessions that are set up and finalized.

use crate::keeper::WatchedKeeper;
use crate::made::{RunEnd, config, run_finished, sinks, sizes};
use crate::told::{tell_refusal, tell_result, tell_runs, tell_session};
use rec_events::{FinalRunStats, ReportUuid, Text};
use rec_memory_streams::FailingSink;
use rec_session::{
    MemoryKeeper, RecordFinalizeWarning, RecordPruneError, RecordRetentionPolicy, RecordSession,
    RecordSessionSetup, RecordSetupError, RecordSetupFailed, RunKeeper,
};
use rec_store::Sha256Namer;
use std::alloc::Global;
use std::test::Fail;
use uuid::Uuid;

const FIRST: u128 = 0x550e8400_e29b_41d4_a716_446655440000;

const SECOND: u128 = 0x550e8abc_e29b_41d4_a716_446655440000;

/// Says how the second session is finalized.
#[derive(Clone, Copy)]
struct End {
    /// Whether all runs are pruned before.
    is_pruned: bool,
    has_sizes: bool,
    run: RunEnd,
    exit_code: i32,
    /// How many runs are kept.
    max_count: Option<usize>,
}

/// Says how two sessions are set up in turn, and the second one finalized, and what comes of it.
#[derive(Clone, Copy)]
struct Case {
    /// The calls of the keeper that fail, counted from 1, or 0.
    fail_at: [u64; 2],
    /// The write to the store's sink that fails, counted from 1, or 0.
    store_fails: u64,
    is_rerun: bool,
    end: Option<End>,
    want: &'static str,
}

type SetUp = RecordSessionSetup<'static, FailingSink, FailingSink, Sha256Namer>;

type Refused = RecordSetupFailed<FailingSink, FailingSink>;

/// Tells what came of setting a session up, and returns it.
fn opened(
    answer: Result<SetUp, Refused>,
    text: &mut String,
) -> Result<Option<RecordSession>, Fail> {
    match answer {
        Ok(setup) => {
            drop(setup.recorder);
            tell_session(&setup.session, text)?;
            Ok(Some(setup.session))
        }
        Err(failed) => {
            let told = tell_refusal(&failed, text);
            drop(failed);
            told?;
            Ok(None)
        }
    }
}

fn set_up(
    alloc: Global,
    keeper: &mut WatchedKeeper,
    run_id: u128,
    case: &Case,
    text: &mut String,
) -> Result<Option<RecordSession>, Fail> {
    let (store, log) = sinks(alloc, case.store_fails, 0)?;
    let run_id = ReportUuid::new(Uuid::from_u128(run_id));
    match config(alloc, run_id, case.is_rerun) {
        Ok(config) => opened(
            RecordSession::setup(alloc, config, keeper, store, log, &Sha256Namer),
            text,
        ),
        Err(error) => {
            drop(store);
            drop(log);
            Err(error)
        }
    }
}

fn set_both_up(
    alloc: Global,
    keeper: &mut WatchedKeeper,
    case: &Case,
    text: &mut String,
) -> Result<Option<RecordSession>, Fail> {
    match set_up(alloc, keeper, FIRST, case, text)? {
        Some(session) => {
            drop(session);
            set_up(alloc, keeper, SECOND, case, text)
        }
        None => Ok(None),
    }
}

fn policy(max_count: Option<usize>) -> RecordRetentionPolicy {
    RecordRetentionPolicy { max_count }
}

/// Finalizes a session, and tells what came of that alone.
fn finalize(
    alloc: Global,
    keeper: &mut WatchedKeeper,
    session: RecordSession,
    end: End,
    text: &mut String,
) -> Result<(), Fail> {
    text.clear();
    if end.is_pruned {
        drop(keeper.inner.prune(&policy(Some(0))));
    }
    keeper.calls.clear();
    let sizes = if end.has_sizes { Some(sizes()) } else { None };
    let finished = run_finished(end.run);
    let kept = policy(end.max_count);
    let result = session.finalize(alloc, keeper, sizes, finished, end.exit_code, &kept)?;
    let told = tell_result(&result, text);
    drop(result);
    Ok(told?)
}

/// Tells what comes of the sessions of a case, the calls that were made,
/// and the runs that the keeper has.
fn tell(
    alloc: Global,
    keeper: &mut WatchedKeeper,
    case: &Case,
    text: &mut String,
) -> Result<(), Fail> {
    if let Some(session) = set_both_up(alloc, keeper, case, text)? {
        match case.end {
            Some(end) => finalize(alloc, keeper, session, end, text)?,
            None => drop(session),
        }
    }
    write!(text, "{}\n", keeper.calls)?;
    Ok(tell_runs(keeper.inner.runs(), text)?)
}

/// Returns what comes of the first of these cases of which not that comes which is wanted,
/// or nothing.
fn first_wrong(alloc: Global, cases: &[Case]) -> Result<String, Fail> {
    let mut text = String::new(alloc);
    for case in cases {
        text.clear();
        let [one, other] = case.fail_at;
        let fail_at = vec![in alloc; one, other]?;
        let mut keeper = WatchedKeeper {
            inner: MemoryKeeper::new(alloc, fail_at),
            calls: String::new(alloc),
        };
        let told = tell(alloc, &mut keeper, case, &mut text);
        drop(keeper);
        told?;
        if text.as_str() != case.want {
            return Ok(text);
        }
    }
    text.clear();
    Ok(text)
}

const RERUN: Case = Case {
    fail_at: [0, 0],
    store_fails: 0,
    is_rerun: true,
    end: None,
    want: "",
};

const SET_UPS: [Case; 7] = [
    Case {
        fail_at: [1, 0],
        want: "the directory, nothing written\nd\n",
        ..RERUN
    },
    Case {
        fail_at: [2, 0],
        want: "the store, nothing written\nd/state\n",
        ..RERUN
    },
    Case {
        fail_at: [3, 0],
        want: "the lock, nothing written\nd/statel\n",
        ..RERUN
    },
    Case {
        fail_at: [4, 0],
        want: "creating the run, nothing written\nd/statelcu\n",
        ..RERUN
    },
    Case {
        store_fails: 1,
        want: "\
writing the store, nothing written
d/statelcu
550e8400-e29b-41d4-a716-446655440000 incomplete 0 0 0 rerun
",
        ..RERUN
    },
    // The first entry was written, and the head of the second.
    Case {
        store_fails: 4,
        want: "\
writing the store, something written
d/statelcu
550e8400-e29b-41d4-a716-446655440000 incomplete 0 0 0 rerun
",
        ..RERUN
    },
    Case {
        is_rerun: false,
        want: "\
550e8400-e29b-41d4-a716-446655440000 /state 5 50e8400-e29b-41d4-a716-446655440000
550e8abc-e29b-41d4-a716-446655440000 /state 550e8a bc-e29b-41d4-a716-446655440000
d/statelcud/statelcu
550e8400-e29b-41d4-a716-446655440000 incomplete 0 0 0 run
550e8abc-e29b-41d4-a716-446655440000 incomplete 0 0 0 run
",
        ..RERUN
    },
];

#[test]
fn sessions_are_set_up(rt: HostRuntime) -> Result<(), Fail> {
    let wrong = first_wrong(rt.alloc(), &SET_UPS)?;
    assert!(rt; wrong.is_empty(), "{wrong}");
    Ok(())
}

const END: End = End {
    is_pruned: false,
    has_sizes: true,
    run: RunEnd::Tests {
        ended: 5,
        failed: 1,
        others: 1,
    },
    exit_code: 100,
    max_count: None,
};

const WHOLE: Case = Case {
    fail_at: [0, 0],
    store_fails: 0,
    is_rerun: false,
    end: Some(END),
    want: "\
not pruned
/statelepu
550e8400-e29b-41d4-a716-446655440000 incomplete 0 0 0 run
550e8abc-e29b-41d4-a716-446655440000 completed 5 3 3 100 10 30 7 run
",
};

// The two sessions make the first eight calls.
const FINALIZED: [Case; 11] = [
    WHOLE,
    Case {
        fail_at: [9, 0],
        want: "\
recording completed but failed to open run store: keeper failed
not pruned
/state
550e8400-e29b-41d4-a716-446655440000 incomplete 0 0 0 run
550e8abc-e29b-41d4-a716-446655440000 incomplete 0 0 0 run
",
        ..WHOLE
    },
    Case {
        fail_at: [10, 0],
        want: "\
recording completed but failed to lock run store: keeper failed
not pruned
/statel
550e8400-e29b-41d4-a716-446655440000 incomplete 0 0 0 run
550e8abc-e29b-41d4-a716-446655440000 incomplete 0 0 0 run
",
        ..WHOLE
    },
    Case {
        fail_at: [11, 0],
        want: "\
recording completed but failed to persist run metadata: keeper failed
not pruned
/statelepu
550e8400-e29b-41d4-a716-446655440000 incomplete 0 0 0 run
550e8abc-e29b-41d4-a716-446655440000 incomplete 0 0 0 run
",
        ..WHOLE
    },
    Case {
        fail_at: [12, 0],
        want: "\
error during prune: keeper failed
not pruned
/statelepu
550e8400-e29b-41d4-a716-446655440000 incomplete 0 0 0 run
550e8abc-e29b-41d4-a716-446655440000 completed 5 3 3 100 10 30 7 run
",
        ..WHOLE
    },
    Case {
        fail_at: [11, 12],
        want: "\
recording completed but failed to persist run metadata: keeper failed
error during prune: keeper failed
not pruned
/statelepu
550e8400-e29b-41d4-a716-446655440000 incomplete 0 0 0 run
550e8abc-e29b-41d4-a716-446655440000 incomplete 0 0 0 run
",
        ..WHOLE
    },
    Case {
        end: Some(End {
            has_sizes: false,
            max_count: Some(0),
            ..END
        }),
        want: "\
not pruned

550e8400-e29b-41d4-a716-446655440000 incomplete 0 0 0 run
550e8abc-e29b-41d4-a716-446655440000 incomplete 0 0 0 run
",
        ..WHOLE
    },
    Case {
        end: Some(End {
            is_pruned: true,
            ..END
        }),
        want: "\
recording completed but run 550e8abc-e29b-41d4-a716-446655440000 was not found in store (may \
have been pruned during execution)
not pruned
/statelepu
",
        ..WHOLE
    },
    Case {
        end: Some(End {
            max_count: Some(4),
            ..END
        }),
        want: "\
pruned 0 0 0
/statelepu
550e8400-e29b-41d4-a716-446655440000 incomplete 0 0 0 run
550e8abc-e29b-41d4-a716-446655440000 completed 5 3 3 100 10 30 7 run
",
        ..WHOLE
    },
    Case {
        end: Some(End {
            max_count: Some(1),
            ..END
        }),
        want: "\
pruned 1 0 0
/statelepu
550e8abc-e29b-41d4-a716-446655440000 completed 5 3 3 100 10 30 7 run
",
        ..WHOLE
    },
    Case {
        end: Some(End {
            max_count: Some(0),
            ..END
        }),
        want: "pruned 2 0 0\n/statelepu\n",
        ..WHOLE
    },
];

#[test]
fn sessions_are_finalized(rt: HostRuntime) -> Result<(), Fail> {
    let wrong = first_wrong(rt.alloc(), &FINALIZED)?;
    assert!(rt; wrong.is_empty(), "{wrong}");
    Ok(())
}

const UNKNOWN: End = End {
    run: RunEnd::Unknown,
    exit_code: -1,
    max_count: Some(1),
    ..END
};

const ENDED: Case = Case {
    end: Some(UNKNOWN),
    want: "\
pruned 1 0 0
/statelepu
550e8abc-e29b-41d4-a716-446655440000 incomplete 10 30 0 run
",
    ..WHOLE
};

const STATUSES: [Case; 8] = [
    ENDED,
    Case {
        end: Some(End {
            run: RunEnd::Tests {
                ended: 5,
                failed: 1,
                others: 1,
            },
            ..UNKNOWN
        }),
        want: "\
pruned 1 0 0
/statelepu
550e8abc-e29b-41d4-a716-446655440000 completed 5 3 3 -1 10 30 7 run
",
        ..ENDED
    },
    Case {
        end: Some(End {
            run: RunEnd::Tests {
                ended: 5,
                failed: 0,
                others: 0,
            },
            ..UNKNOWN
        }),
        want: "\
pruned 1 0 0
/statelepu
550e8abc-e29b-41d4-a716-446655440000 completed 5 3 0 -1 10 30 7 run
",
        ..ENDED
    },
    Case {
        end: Some(End {
            run: RunEnd::Tests {
                ended: 4,
                failed: 0,
                others: 0,
            },
            ..UNKNOWN
        }),
        want: "\
pruned 1 0 0
/statelepu
550e8abc-e29b-41d4-a716-446655440000 cancelled 5 3 0 -1 10 30 7 run
",
        ..ENDED
    },
    Case {
        end: Some(End {
            run: RunEnd::Tests {
                ended: 5,
                failed: 18446744073709551614,
                others: 1,
            },
            ..UNKNOWN
        }),
        want: "\
pruned 1 0 0
/statelepu
550e8abc-e29b-41d4-a716-446655440000 completed 5 3 18446744073709551615 -1 10 30 7 run
",
        ..ENDED
    },
    Case {
        end: Some(End {
            run: RunEnd::Rounds {
                failed: 2,
                last: FinalRunStats::Cancelled,
            },
            ..UNKNOWN
        }),
        want: "\
pruned 1 0 0
/statelepu
550e8abc-e29b-41d4-a716-446655440000 rounds completed 0 4 2 -1 10 30 7 run
",
        ..ENDED
    },
    Case {
        end: Some(End {
            run: RunEnd::Rounds {
                failed: 0,
                last: FinalRunStats::Cancelled,
            },
            ..UNKNOWN
        }),
        want: "\
pruned 1 0 0
/statelepu
550e8abc-e29b-41d4-a716-446655440000 rounds cancelled 0 4 0 -1 10 30 7 run
",
        ..ENDED
    },
    Case {
        end: Some(End {
            run: RunEnd::Rounds {
                failed: 0,
                last: FinalRunStats::Success,
            },
            ..UNKNOWN
        }),
        want: "\
pruned 1 0 0
/statelepu
550e8abc-e29b-41d4-a716-446655440000 rounds completed 0 4 0 -1 10 30 7 run
",
        ..ENDED
    },
];

#[test]
fn runs_get_their_status(rt: HostRuntime) -> Result<(), Fail> {
    let wrong = first_wrong(rt.alloc(), &STATUSES)?;
    assert!(rt; wrong.is_empty(), "{wrong}");
    Ok(())
}

#[test]
fn a_prune_error_is_printed(rt: HostRuntime) -> Result<(), Fail> {
    let alloc = rt.alloc();
    let message = Text::from_str(alloc, "run 7 is in use")?;
    let warning = RecordFinalizeWarning::PruneError(RecordPruneError { message });
    let text = format!(in alloc; "{warning}, {warning:?}");
    drop(warning);
    let printed = "error during prune: run 7 is in use, error during prune: run 7 is in use";
    assert!(rt; text?.as_str() == printed);
    Ok(())
}

#[test]
fn a_refused_session_is_printed_by_its_error(rt: HostRuntime) -> Result<(), Fail> {
    let failed = RecordSetupFailed {
        error: RecordSetupError::StoreLock,
        store: (),
        log: (),
    };
    let text = format!(in rt.alloc(); "{failed}, {failed:?}");
    drop(failed);
    assert!(rt; text?.as_str() == "locking the store failed, locking the store failed");
    Ok(())
}
