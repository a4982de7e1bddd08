//! How a test ends.
use std::fmt::Debug;
use std::process::Abort;

/// Ends a test: what it looked at has to hold. Memory that ran out is an error of the test, and so is any other fault.
pub(crate) fn check<E: Debug + Drop>(rt: &(impl Abort + Eprint), holds: Result<bool, E>) {
    match holds {
        Ok(holds) => assert!(rt; holds),
        Err(fault) => end(rt, fault),
    }
}

/// Ends a test of many cases: none may be wrong.
pub(crate) fn check_all<W: Debug + Drop, E: Debug + Drop>(
    rt: &(impl Abort + Eprint),
    wrong: Result<Option<W>, E>,
) {
    match wrong {
        Ok(wrong) => none_wrong(rt, wrong),
        Err(fault) => end(rt, fault),
    }
}

/// No case may be wrong.
pub(crate) fn none_wrong<W: Debug + Drop>(rt: &impl Abort, wrong: Option<W>) {
    assert!(rt; wrong.is_none(), "{wrong:?}");
}

/// Ends a test by a fault, as one ends that answers it. A test that answers nothing is proved in half the time.
fn end<E: Debug + Drop>(rt: &(impl Abort + Eprint), fault: E) {
    let _ = eprintln!(rt; "error: {fault:?}");
    rt.exit(1)
}
