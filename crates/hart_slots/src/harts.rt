ghost use Rattle.std.specs.Prelude.{◌≡◌, ◌+◌, ◌≤◌, ◌||◌, ℕ, false};
ghost use Rattle.std.specs.Prelude.{length, take, drop, slice_get, slice_index_or, slice_set};
ghost use Rattle.std.specs.List.{list_any, position_from};
ghost use Rattle.std.specs.Option.{option_copied, option_map};
ghost use Rattle.guest_words.specs.Harts.{is_free, is_ready};
ghost use Rattle.guest_words.specs.declared.limits.TheConstants.{HARTS};
ghost use Rattle.hart_slots.specs.Parts.{is_live_state, ready_where};

use crate::places::{before, behind};
use guest_atomics::Harts;
use guest_words::{Hart, HartState};

/// The hart in a slot.
#[inline]
pub(crate) fn hart_at(harts: &[Hart], h: usize) -> Option<&Hart>
    ensures value { option_copied result ≡ slice_get harts.now h }
{
    harts.get(h)
}

/// Puts another hart into a slot, if it is there.
pub(crate) fn put_at(harts: &mut Harts, h: usize, hart: Hart)
    ensures value { harts.new ≡ slice_set harts.old h hart }
{
    if h < harts.items().len() {
        *harts.hart_mut(h) = hart;
    }
}

/// Makes those harts ready whose flag is true.
pub(crate) fn ready_marked(harts: &mut Harts, flags: &[bool])
    ensures count { length harts.new ≡ length harts.old }
    ensures each { (k : ℕ) → slice_get harts.new k
        ≡ option_map (ready_where (slice_index_or flags.now k false)) (slice_get harts.old k) }
{
    let count = harts.items().len();
    for (h, is_marked) in flags.iter().enumerate() {
        if *is_marked && h < count {
            harts.hart_mut(h).state = HartState::Ready;
        }
    }
}

/// Whether a hart is ready.
pub(crate) fn any_ready(harts: &[Hart]) -> bool
    ensures value { result ≡ list_any (λ hart. is_ready hart.state) harts.now }
{
    for hart in harts {
        if is_ready(&hart.state) {
            return true;
        }
    }
    false
}

/// Whether a hart beside the one in a slot is ready or waits.
pub(crate) fn any_live_beside(harts: &[Hart], h: u8) -> bool
    ensures value { result ≡ (list_any (λ hart. is_live_state hart.state) (take h harts.now)
        || list_any (λ hart. is_live_state hart.state) (drop (h + 1) harts.now)) }
{
    any_live(before(harts, h)) || any_live(behind(harts, h))
}

/// Whether a hart is ready or waits.
fn any_live(harts: &[Hart]) -> bool
    ensures value { result ≡ list_any (λ hart. is_live_state hart.state) harts.now }
{
    for hart in harts {
        if is_live(&hart.state) {
            return true;
        }
    }
    false
}

/// The least slot from 1 on that a new hart can take.
pub(crate) fn first_free(harts: &[Hart]) -> Option<u8>
    requires few { length harts.now ≤ HARTS }
    ensures value { result ≡ position_from (λ hart. is_free hart.state) 1 (drop 1 harts.now) }
{
    for h in 1..harts.len() {
        if is_free(&harts[h].state) {
            return Some(h as u8);
        }
    }
    None
}

/// Whether a hart may act.
pub(crate) fn is_ready(state: &HartState) -> bool
    ensures value { result ≡ is_ready state.now }
{
    match state {
        HartState::Ready => true,
        _ => false,
    }
}

fn is_live(state: &HartState) -> bool
    ensures value { result ≡ is_live_state state.now }
{
    match state {
        HartState::Ready | HartState::Waiting(_) => true,
        _ => false,
    }
}

fn is_free(state: &HartState) -> bool
    ensures value { result ≡ is_free state.now }
{
    match state {
        HartState::Empty | HartState::Gone(_) => true,
        _ => false,
    }
}
