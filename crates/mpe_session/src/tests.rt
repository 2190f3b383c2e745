//! A terminal with ample memory.

use super::*;
use hp_session::Line;
use std::alloc::Global;
use std::test::Fail;

#[test]
fn a_terminal_has_its_lines_and_room(rt: HostRuntime) -> Result<(), Fail> {
    let alloc = rt.alloc();
    let mut lines = Vec::new(alloc);
    for text in ["GOOD", ""] {
        lines.push(Line {
            bytes: Vec::from_slice(alloc, text.as_bytes())?,
        })?;
    }
    let seat = Seat {
        program: 0,
        stack: 1024,
        extra: 0,
        room: 16384,
        lines,
    };
    let terminal = Terminal::make(alloc, seat.lines, seat.room)?;
    assert_eq!(rt; terminal.lines.len(), 2);
    assert_eq!(rt; terminal.next_line, 0);
    assert!(rt; terminal.printed.is_empty());
    assert_eq!(rt; terminal.room, 16384);
    assert!(rt; 16384 <= terminal.printed.capacity());
    Ok(())
}
