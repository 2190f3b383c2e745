//! The rows of major 0 that put words elsewhere: delete, copy and exchange them, and X with them.
ghost use Rattle.std.specs.Prelude.{◌≡◌};
ghost use Rattle.hp_session.specs.State.{Does};
ghost use Rattle.hp_stack_rows.specs.StackRows.{below_becomes, below_deleted, copied, double_copied, doubles_exchanged, exchanged, rotated, top_plus_x, x_and_below, x_and_top, x_from_below, x_from_top, x_plus_top};
ghost use Rattle.hp_session.specs.State.{deleted};

use hp_session::Session;
use hp_word::Trap;

/// STBX.
#[tactic(auto, unfolding(crate::specs::StackRows::x_from_below))]
pub(crate) fn take_x_below(session: &mut Session) -> Result<(), Trap>
    ensures { Does (x_from_below session.old) session.old result session.new }
{
    session.need(2)?;
    session.regs.x = session.word(1);
    Ok(())
}

/// STAX.
#[tactic(auto, unfolding(crate::specs::StackRows::x_from_top))]
pub(crate) fn take_x(session: &mut Session) -> Result<(), Trap>
    ensures { Does (x_from_top session.old) session.old result session.new }
{
    session.need(1)?;
    session.regs.x = session.word(0);
    session.delete(1);
    Ok(())
}

/// ADAX.
#[tactic(auto, unfolding(crate::specs::StackRows::x_plus_top))]
pub(crate) fn add_to_x(session: &mut Session) -> Result<(), Trap>
    ensures { Does (x_plus_top session.old) session.old result session.new }
{
    session.need(1)?;
    session.regs.x = session.regs.x.wrapping_add(session.word(0));
    session.delete(1);
    Ok(())
}

/// ADXA.
#[tactic(auto, unfolding(crate::specs::StackRows::top_plus_x))]
pub(crate) fn add_x(session: &mut Session) -> Result<(), Trap>
    ensures { Does (top_plus_x session.old) session.old result session.new }
{
    session.need(1)?;
    let sum = session.word(0).wrapping_add(session.regs.x);
    session.leave(1, sum);
    Ok(())
}

/// XAX.
#[tactic(auto, unfolding(crate::specs::StackRows::x_and_top))]
pub(crate) fn exchange_x(session: &mut Session) -> Result<(), Trap>
    ensures { Does (x_and_top session.old) session.old result session.new }
{
    session.need(1)?;
    let top = session.word(0);
    session.leave(1, session.regs.x);
    session.regs.x = top;
    Ok(())
}

/// XBX.
#[tactic(auto, unfolding(crate::specs::StackRows::x_and_below))]
pub(crate) fn exchange_x_below(session: &mut Session) -> Result<(), Trap>
    ensures { Does (x_and_below session.old) session.old result session.new }
{
    session.need(2)?;
    let (below, top) = (session.word(1), session.word(0));
    session.replace(2, &[session.regs.x, top]);
    session.regs.x = below;
    Ok(())
}

/// ZROB and LDXB: B becomes a word.
#[tactic(auto, unfolding(crate::specs::StackRows::below_becomes))]
pub(crate) fn set_below(session: &mut Session, w: u16) -> Result<(), Trap>
    ensures { Does (below_becomes w session.old) session.old result session.new }
{
    session.need(2)?;
    let top = session.word(0);
    session.replace(2, &[w, top]);
    Ok(())
}

/// XCH.
#[tactic(auto, unfolding(crate::specs::StackRows::exchanged))]
pub(crate) fn exchange(session: &mut Session) -> Result<(), Trap>
    ensures { Does (exchanged session.old) session.old result session.new }
{
    session.need(2)?;
    let (b, a) = (session.word(1), session.word(0));
    session.replace(2, &[a, b]);
    Ok(())
}

/// DXCH.
#[tactic(auto, unfolding(crate::specs::StackRows::doubles_exchanged))]
pub(crate) fn exchange_doubles(session: &mut Session) -> Result<(), Trap>
    ensures { Does (doubles_exchanged session.old) session.old result session.new }
{
    session.need(4)?;
    let (d, c) = (session.word(3), session.word(2));
    let (b, a) = (session.word(1), session.word(0));
    session.replace(4, &[b, a, d, c]);
    Ok(())
}

/// CAB.
#[tactic(auto, unfolding(crate::specs::StackRows::rotated))]
pub(crate) fn rotate(session: &mut Session) -> Result<(), Trap>
    ensures { Does (rotated session.old) session.old result session.new }
{
    session.need(3)?;
    let (c, b, a) = (session.word(2), session.word(1), session.word(0));
    session.replace(3, &[b, a, c]);
    Ok(())
}

/// DELB.
#[tactic(auto, unfolding(crate::specs::StackRows::below_deleted))]
pub(crate) fn delete_below(session: &mut Session) -> Result<(), Trap>
    ensures { Does (below_deleted session.old) session.old result session.new }
{
    session.need(2)?;
    let top = session.word(0);
    session.leave(2, top);
    Ok(())
}

/// DUP.
#[tactic(auto, unfolding(crate::specs::StackRows::copied))]
pub(crate) fn copy(session: &mut Session) -> Result<(), Trap>
    ensures { Does (copied session.old) session.old result session.new }
{
    session.need(1)?;
    session.push(session.word(0))
}

/// DDUP.
#[tactic(auto, unfolding(crate::specs::StackRows::double_copied))]
pub(crate) fn copy_double(session: &mut Session) -> Result<(), Trap>
    ensures { Does (double_copied session.old) session.old result session.new }
{
    session.need(2)?;
    session.push_all(&[session.word(1), session.word(0)])
}
