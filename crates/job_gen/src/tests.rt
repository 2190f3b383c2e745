//! Generated jobs beside texts that another program made.

mod seventh;

use super::*;
use std::test::Fail;

/// The length of a text and its checksum Adler-32.
fn sums(text: &[u8]) -> (usize, u32) {
    let mut low: u32 = 1;
    let mut high: u32 = 0;
    for byte in text {
        low = low.wrapping_add(*byte as u32) % 65_521;
        high = high.wrapping_add(low) % 65_521;
    }
    (text.len(), high.wrapping_mul(65_536).wrapping_add(low))
}

#[test]
fn texts_are_those_of_another_generator(rt: HostRuntime) -> Result<(), Fail> {
    let cases = [
        (0, (55_317, 1_610_544_428)),
        (7, (55_322, 4_059_166_150)),
        (65_535, (55_327, 1_741_617_088)),
    ];
    for (n, want) in cases {
        let text = generate(rt.alloc(), n)?;
        assert_eq!(rt; sums(&text), want, "{n}");
    }
    Ok(())
}

#[test]
fn the_first_and_the_last_program_of_job_7(rt: HostRuntime) -> Result<(), Fail> {
    let text = generate(rt.alloc(), 7)?;
    assert!(rt; text.starts_with(seventh::FRONT.as_bytes()));
    assert!(rt; text.ends_with(seventh::END.as_bytes()));
    Ok(())
}
