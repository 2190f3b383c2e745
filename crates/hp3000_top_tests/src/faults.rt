//! A job cut at each byte, a sink that ends at each byte, and a source of which each call fails in turn.
use crate::runs::{HELLO, HELLO_REPORT, run};
use std::test::Fail;

#[test]
fn jobs_are_cut_at_each_byte(rt: HostRuntime) -> Result<(), Fail> {
    // the last line may lack its line feed
    let whole = HELLO.len() - 1;
    for end in 0..=HELLO.len() {
        let left = run(rt.alloc(), &HELLO[..end], &[], 4096)?;
        assert_eq!(rt; left.status, if end < whole { 1 } else { 0 });
    }
    Ok(())
}

#[test]
fn sinks_end_at_each_byte(rt: HostRuntime) -> Result<(), Fail> {
    for room in 0..=HELLO_REPORT.len() {
        let left = run(rt.alloc(), HELLO, &[], room)?;
        assert_eq!(rt; left.status, if room < HELLO_REPORT.len() { 4 } else { 0 });
        assert_eq!(rt; left.bytes.as_slice(), &HELLO_REPORT[..room]);
    }
    Ok(())
}

#[test]
fn each_call_of_a_source_fails_in_turn(rt: HostRuntime) -> Result<(), Fail> {
    let clean = run(rt.alloc(), HELLO, &[], 4096)?;
    assert_eq!(rt; clean.status, 0);
    // the job, and that there is no more
    assert!(rt; clean.reads >= 2);
    for call in 0..clean.reads {
        let left = run(rt.alloc(), HELLO, &[call], 4096)?;
        assert_eq!(rt; (left.status, left.bytes.len()), (3, 0));
    }
    Ok(())
}
