//! The forms of branches: all short at first, those that do not reach made long, again until none changes. A distance only
//! grows, so a long form stays justified; and each round goes over the branches alone.
ghost use Rattle.std.specs.Prelude.{◌≡◌, ℕ, suc, ◌+◌, ◌<◌, ◌≤◌, ◌^◌, length, map, slice_index, slice_index_or, false, IfOk, IfSome, MatchOption, IsTrue, ◌↔◌};
ghost use Rattle.spl_branch.specs.declared.survey.Stand.{Stand};
ghost use Rattle.spl_branch.specs.Rounds.{shifts_of, target, misses, longer_from, longer, rounds, total, targets, stand_at, IsWithin, Chosen};

use crate::survey::{MOST, Plan, Stand, Turn, more_of, reach_of};
use std::alloc::{AllocError, Global};

/// The number at an index, and 0 past the end.
fn number_at(numbers: &[u32], index: usize) -> u32
    ensures { result ≡ slice_index numbers.now index }
{
    numbers.get(index).copied().unwrap_or(0)
}

/// Whether a branch is long.
fn is_long(far: &[bool], index: usize) -> bool
    ensures { result ≡ slice_index_or far.now index false }
{
    far.get(index).copied().unwrap_or(false)
}

/// Where a mark stands; one that is not there stands at the start.
fn stand_of(stands: &[Stand], mark: usize) -> Stand
    ensures { result ≡ stand_at stands.now mark }
{
    match stands.get(mark) {
        Some(stand) => *stand,
        None => Stand {
            place: 0,
            before: 0,
        },
    }
}

/// The words that long forms add before each branch, and before the end.
fn shifts(alloc: Global, turns: &[Turn], far: &[bool]) -> Result<Vec<u32>, AllocError>
    requires { length turns.now ≤ 16383 }
    ensures { IfOk result (λ v. v.items ≡ shifts_of 0 turns.now far.now) }
{
    let mut shifts = Vec::with_capacity(alloc, turns.len() + 1)?;
    let mut shift: u32 = 0;
    for (k, turn) in turns.iter().enumerate() {
        shifts.push(shift)?;
        if is_long(far, k) {
            shift += more_of(turn.by) as u32;
        }
    }
    shifts.push(shift)?;
    Ok(shifts)
}

/// Branch number `k` does not reach its mark.
fn misses(stands: &[Stand], shifts: &[u32], k: usize, turn: &Turn) -> bool
    ensures { result ≡ misses stands.now shifts.now k turn.now }
{
    let stand = stand_of(stands, turn.mark);
    let here = turn.place as usize + number_at(shifts, k) as usize;
    let there = stand.place as usize + number_at(shifts, stand.before) as usize;
    if stand.before <= k {
        reach_of(turn.by) < here.saturating_sub(there)
    } else {
        reach_of(turn.by) < there.saturating_sub(here)
    }
}

/// One round: the branches that do not reach become long.
fn lengthened(
    alloc: Global,
    stands: &[Stand],
    shifts: &[u32],
    turns: &[Turn],
    far: &[bool],
) -> Result<Vec<bool>, AllocError>
    ensures { IfOk result (λ v. v.items ≡ longer_from stands.now shifts.now 0 turns.now far.now) }
{
    let mut longer = Vec::with_capacity(alloc, turns.len())?;
    for (k, turn) in turns.iter().enumerate() {
        longer.push(is_long(far, k) || misses(stands, shifts, k, turn))?;
    }
    Ok(longer)
}

/// Whether forms are the same.
fn same_forms(one: &[bool], other: &[bool]) -> bool
    ensures { IsTrue result ↔ (one.now ≡ other.now) }
{
    one == other
}

/// The offsets of the marks.
fn offsets(alloc: Global, stands: &[Stand], shifts: &[u32]) -> Result<Vec<u16>, AllocError>
    requires { (l : ℕ) → target stands.now shifts.now l ≤ 16383 }
    ensures { IfOk result (λ v. v.items ≡ map (λ (st : Stand). st.place + slice_index shifts.now st.before) stands.now) }
{
    let mut offsets = Vec::with_capacity(alloc, stands.len())?;
    for stand in stands {
        offsets.push((stand.place as u32 + number_at(shifts, stand.before)) as u16)?;
    }
    Ok(offsets)
}

/// The offsets of the marks once no branch changes its form, or none where there are more than 16,383 words.
pub fn settle(alloc: Global, plan: &Plan) -> Result<Option<Vec<u16>>, AllocError>
    requires few { length plan.now.turns.items ≤ 16383 }
    requires size { plan.now.size ≤ 16383 }
    requires within { IsWithin plan.now.stands.items plan.now.size (length plan.now.turns.items) }
    ensures { IfOk result (λ o. Chosen plan.now.stands.items plan.now.turns.items plan.now.size o) }
{
    let turns = plan.turns.as_slice();
    let stands = plan.stands.as_slice();
    let mut far = vec![in alloc; false; turns.len()]?;
    loop {
        let shifts = shifts(alloc, turns, far.as_slice())?;
        if plan.size + number_at(shifts.as_slice(), turns.len()) as usize > MOST {
            return Ok(None);
        }
        let longer = lengthened(alloc, stands, shifts.as_slice(), turns, far.as_slice())?;
        if same_forms(longer.as_slice(), far.as_slice()) {
            return Ok(Some(offsets(alloc, stands, shifts.as_slice())?));
        }
        far = longer;
    }
}
