//! Program files from outside: a small one, cut and changed at each place.
use mpe_progfile::{FileFault, read, write};
use std::alloc::Global;
use std::test::Fail;

/// A program of one segment: a call of the monitor, and a table of two entries.
static SMALL: [u8; 24] = [
    0x4d, 0x50, 0x45, 0x50, 0x00, 0x01, 0x00, 0x01, 0x00, 0x00, 0x00, 0x01, 0x00, 0x00, 0x00, 0x04,
    0x30, 0x02, 0x87, 0xff, 0x00, 0x00, 0x00, 0x02,
];

/// The small file with these bytes in place of its own from one on.
fn changed(alloc: Global, at: usize, bytes: &[u8]) -> Result<Vec<u8>, Fail> {
    let mut file = Vec::from_slice(alloc, &SMALL)?;
    for (i, byte) in bytes.iter().enumerate() {
        if let Some(place) = file.get_mut(at.saturating_add(i)) {
            *place = *byte;
        }
    }
    Ok(file)
}

#[test]
fn the_small_file_is_read_and_written_again(rt: HostRuntime) -> Result<(), Fail> {
    let alloc = rt.alloc();
    match read(alloc, &SMALL) {
        Ok(program) => {
            assert_eq!(rt; program.main, 0);
            assert_eq!(rt; program.entry, 1);
            assert_eq!(rt; program.globals.len(), 0);
            assert_eq!(rt; program.segments.len(), 1);
            assert!(rt;
                matches!(write(alloc, &program), Ok(file) if file.as_slice() == SMALL.as_slice())
            );
        }
        Err(_) => assert!(rt; false),
    }
    Ok(())
}

#[test]
fn a_file_that_is_cut_is_truncated_at_its_end(rt: HostRuntime) -> Result<(), Fail> {
    let alloc = rt.alloc();
    for k in 0..24usize {
        assert!(rt;
            matches!(read(alloc, &SMALL[..k]), Err(FileFault::Truncated(n)) if n as usize == k)
        );
    }
    Ok(())
}

#[test]
fn each_fault_stands_at_its_byte(rt: HostRuntime) -> Result<(), Fail> {
    let alloc = rt.alloc();
    let cases: [(usize, [u8; 2], FileFault); 16] = [
        // magic, version, number of segments, main segment, number of data words
        (0, [0x4d, 0x51], FileFault::BadHead(0)),
        (2, [0x45, 0x51], FileFault::BadHead(0)),
        (4, [0x00, 0x02], FileFault::BadHead(4)),
        (6, [0x00, 0x00], FileFault::BadHead(6)),
        (6, [0x00, 0x3f], FileFault::BadHead(6)),
        (8, [0x00, 0x01], FileFault::BadHead(8)),
        (12, [0x7d, 0x01], FileFault::BadHead(12)),
        // the size of a segment, and its number of entries
        (14, [0x00, 0x01], FileFault::BadSegment(14)),
        (14, [0x40, 0x00], FileFault::BadSegment(14)),
        (22, [0x00, 0x04], FileFault::BadSegment(22)),
        // the main entry: none, external, past the table
        (10, [0x00, 0x00], FileFault::BadLabel(10)),
        (10, [0x00, 0x02], FileFault::BadLabel(10)),
        (10, [0x01, 0x00], FileFault::BadLabel(10)),
        // a gate that is none, a segment that is none, a local label past the code is the main entry's fault
        (18, [0x89, 0xff], FileFault::BadLabel(18)),
        (18, [0x81, 0x01], FileFault::BadLabel(18)),
        (20, [0x00, 0x01], FileFault::BadLabel(10)),
    ];
    for (at, bytes, fault) in cases {
        let file = changed(alloc, at, &bytes)?;
        assert!(rt; matches!(read(alloc, &file), Err(f) if f == fault));
    }
    Ok(())
}

#[test]
fn a_byte_too_many_is_told_at_its_place(rt: HostRuntime) -> Result<(), Fail> {
    let alloc = rt.alloc();
    let mut file = Vec::from_slice(alloc, &SMALL)?;
    file.push(0)?;
    assert!(rt; matches!(read(alloc, &file), Err(FileFault::Trailing(24))));
    Ok(())
}
