//! The two states beside lists written by hand: which list each call reads and writes, and what a refusal shows.

use super::*;
use std::test::Fail;

#[test]
fn whole_mode_reads_and_writes_the_stack_alone(rt: HostRuntime) -> Result<(), Fail> {
    let stack = vec![in rt.alloc(); 10, 11, 12, 13]?;
    let extra = vec![in rt.alloc(); 20, 21]?;
    let mut data = Whole { stack, extra };
    assert_eq!(rt; data.stack.len(), 4);
    let reads = [
        (0, 3, Ok(10)),
        (2, 3, Ok(12)),
        (3, 3, Err(Bounds { address: 3, top: 3 })),
        (3, 4, Ok(13)),
        (
            65535,
            4,
            Err(Bounds {
                address: 65535,
                top: 4,
            }),
        ),
        (0, 0, Err(Bounds { address: 0, top: 0 })),
    ];
    for (address, top, want) in reads {
        assert_eq!(rt;
            data.read(address, top.min(4)),
            want,
            "at {address} of {top}"
        );
    }
    assert_eq!(rt; data.write(1, 2, 99), Ok(()));
    assert_eq!(rt; data.write(2, 2, 98), Err(Bounds { address: 2, top: 2 }));
    assert_eq!(rt; data.stack.as_slice(), [10, 99, 12, 13].as_slice());
    assert_eq!(rt; data.extra.as_slice(), [20, 21].as_slice());
    Ok(())
}

#[test]
fn split_mode_has_db_in_the_extra_segment(rt: HostRuntime) -> Result<(), Fail> {
    let stack = vec![in rt.alloc(); 10, 11, 12, 13]?;
    let extra = vec![in rt.alloc(); 20, 21]?;
    let mut data = Whole { stack, extra }.split();
    assert_eq!(rt; data.stack.len(), 4);
    assert_eq!(rt; data.read_db(1), Ok(21));
    assert_eq!(rt; data.read_db(2), Err(Bounds { address: 2, top: 2 }));
    assert_eq!(rt; data.read_stack(1, 2), Ok(11));
    assert_eq!(rt; data.read_stack(2, 2), Err(Bounds { address: 2, top: 2 }));
    assert_eq!(rt; data.write_db(0, 97), Ok(()));
    assert_eq!(rt; data.write_db(3, 96), Err(Bounds { address: 3, top: 2 }));
    assert_eq!(rt; data.write_stack(3, 4, 95), Ok(()));
    assert_eq!(rt;
        data.write_stack(4, 4, 94),
        Err(Bounds { address: 4, top: 4 })
    );
    let data = data.join();
    assert_eq!(rt; data.stack.as_slice(), [10, 11, 12, 95].as_slice());
    assert_eq!(rt; data.extra.as_slice(), [97, 21].as_slice());
    Ok(())
}
