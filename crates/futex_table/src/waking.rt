ghost use Rattle.std.specs.Prelude.{◌≡◌, ◌<◌, ◌≤◌, true, false, length, take};
ghost use Rattle.std.specs.List.{All};
ghost use Rattle.guest_words.specs.CallChanges.{waits_at, woken, unwoken};
ghost use Rattle.guest_words.specs.declared.limits.TheConstants.{HARTS};
ghost use Rattle.futex_table.specs.Slots.{MarksSlots};

use crate::queue::SLOTS;
use crate::woken::Woken;
use guest_words::Waiter;

/// Whether a waiter is woken at a place, where so many may still be.
fn is_woken(waiter: &Waiter, place: u64, left: u32) -> bool
    ensures yes { result ≡ true → (waits_at place waiter.now ≡ true) × (0 < left) }
    ensures no { result ≡ false → waits_at place waiter.now ≡ true → left ≡ 0 }
{
    waiter.place == place && left > 0
}

/// The waiters that are woken.
pub(crate) fn woken_of(waiters: &[Waiter], place: u64, most: u32) -> Woken
    requires below { All (λ waiter. waiter.slot < HARTS) waiters.now }
    ensures slots { MarksSlots result.slots (woken place most waiters.now) }
    ensures count { result.count ≡ length (woken place most waiters.now) }
{
    let mut slots = [false; SLOTS];
    let mut left = most;
    for waiter in waiters {
        if is_woken(waiter, place, left) {
            slots[usize::from(waiter.slot)] = true;
            left -= 1;
        }
    }
    Woken {
        slots,
        count: most - left,
    }
}

/// Moves the waiters that aren't woken to the front, and says how many they are.
pub(crate) fn keep_unwoken(
    waiters: &mut [Waiter; SLOTS],
    count: usize,
    place: u64,
    most: u32,
) -> usize
    requires within { count ≤ SLOTS }
    ensures size { length waiters.new ≡ SLOTS }
    ensures fewer { result ≤ count }
    ensures value { take result waiters.new ≡ unwoken place most (take count waiters.old) }
{
    let mut kept = 0;
    let mut left = most;
    for index in 0..count {
        let waiter = waiters[index];
        if is_woken(&waiter, place, left) {
            left -= 1;
        } else {
            waiters[kept] = waiter;
            kept += 1;
        }
    }
    kept
}
