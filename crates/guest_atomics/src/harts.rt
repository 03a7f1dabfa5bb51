ghost use Rattle.std.specs.Prelude.{◌≡◌, ◌-◌, ◌<◌, ◌∷◌, true, false, map, length, replicate};
ghost use Rattle.std.specs.Prelude.{slice_get, IfOk};
ghost use Rattle.std.specs.List.{All};
ghost use Rattle.std.specs.Borrow.{sem};
ghost use Rattle.guest_words.specs.Harts.{touched, unreserved};
ghost use Rattle.guest_words.specs.Start.{empty_hart};
ghost use Rattle.guest_atomics.specs.Free.{IsFree, IsFreeAt, IsFreeBut};
ghost use Rattle.guest_atomics.specs.Idle.{IsIdleFrom};
ghost use Rattle.guest_atomics.specs.Lending.{LendsHart};

use crate::reservation::{release, touch};
use guest_words::{Hart, MemoryWant};
use std::alloc::Global;
use std::marker::Model;

/// The harts of a machine, by slot. They know whether a reservation may be held, so that a store
/// need not look at each hart, and up to which slot harts have come, so that who looks for ready
/// ones need not look at each slot.
#[derive(Drop)]
pub struct Harts {
    pub(crate) items: Vec<Hart>,
    /// The slot that was lent last, whose hart may have any reservation.
    pub(crate) lent: usize,
    /// Whether another hart may have a reservation.
    pub(crate) others: bool,
    /// All slots are empty from this one on; the one that was lent last stands before it.
    pub(crate) used: usize,
}

impl Model for Harts {
    ghost use Rattle.std.specs.Prelude.{List};
    ghost use Rattle.guest_words.specs.declared.hart.Hart.{Hart};

    ghost Value = { List Hart };

    ghost use Rattle.guest_atomics.specs.Idle.{IsKnown};

    ghost view = { λ h. h.items.items };

    ghost invariant = { λ h. IsKnown h.items.items h.lent h.others h.used };
}

impl Harts {
    /// The harts of the `Vec`, which is kept as it is.
    pub fn of(items: Vec<Hart>) -> Harts
        ensures list { result ≡ items.items }
    {
        let others = any_reservation(&items);
        let used = items.len().max(1);
        Harts {
            items,
            lent: 0,
            others,
            used,
        }
    }

    /// So many slots, but at least one: a hart in the first, and all others empty.
    pub fn start(alloc: Global, first: Hart, count: usize) -> Result<Harts, MemoryWant>
        ensures ok { IfOk result (λ harts. harts ≡ first ∷ replicate (count - 1) empty_hart) }
    {
        let mut items = Vec::new(alloc);
        items.push(first)?;
        items.resize(count.max(1), Hart::EMPTY)?;
        Ok(Harts {
            items,
            lent: 0,
            others: false,
            used: 1,
        })
    }

    /// The harts, by slot.
    #[inline]
    pub fn items(&self) -> &[Hart]
        ensures list { result.now ≡ self.now }
    {
        self.items.as_slice()
    }

    /// The hart in a slot, to be changed in place.
    #[inline]
    pub fn hart_mut(&mut self, slot: usize) -> &mut Hart
        requires within { slot < length self.old }
        ensures* lent { sem 𝓛 (LendsHart self.entry slot result) }
        ensures value { slice_get self.old slot ≡ Some result.now }
    {
        if slot != self.lent {
            self.others = self.others || has_reservation(&self.items, self.lent);
            self.lent = slot;
            self.used = self.used.max(slot + 1);
        }
        &mut self.items[slot]
    }

    /// Ends each reservation that has a byte among the `size` bytes from `address` on. Costs next
    /// to nothing where no hart has one. Takes no memory.
    #[inline]
    pub fn touched(&mut self, address: u64, size: u64)
        ensures value { self.new ≡ map (touched address size) self.old }
    {
        if self.may_hold() {
            end_touched(&mut self.items, address, size);
            self.others = any_reservation(&self.items);
        }
    }

    /// Ends all reservations. Takes no memory.
    pub fn clear_all(&mut self)
        ensures value { self.new ≡ map unreserved self.old }
    {
        if self.may_hold() {
            end_all(&mut self.items);
            self.others = false;
        }
    }

    /// Whether no hart but, maybe, the one in a slot has a reservation; false where that isn't
    /// known at once.
    #[inline]
    pub fn is_free_but(&self, slot: usize) -> bool
        ensures free { result ≡ true → IsFreeBut slot self.now }
    {
        self.lent == slot && !self.others
    }

    /// A slot from which on no hart is ready, seldom past those that have had a hart.
    #[inline]
    pub fn used(&self) -> usize
        ensures idle { IsIdleFrom result self.now }
    {
        self.used
    }

    /// Equal harts.
    pub fn copy(&self, alloc: Global) -> Result<Harts, MemoryWant>
        ensures ok { IfOk result (λ harts. harts ≡ self.now) }
    {
        Ok(Harts {
            items: Vec::from_slice(alloc, self.items.as_slice())?,
            lent: self.lent,
            others: self.others,
            used: self.used,
        })
    }

    /// Whether some hart may have a reservation.
    #[inline]
    fn may_hold(&self) -> bool
        ensures none { result ≡ false → All IsFree self.now }
    {
        self.others || has_reservation(&self.items, self.lent)
    }
}

/// Whether the hart in a slot has a reservation.
#[inline]
fn has_reservation(harts: &[Hart], slot: usize) -> bool
    ensures none { result ≡ false → IsFreeAt slot harts.now }
{
    match harts.get(slot) {
        Some(hart) => hart.reservation.is_some(),
        None => false,
    }
}

fn any_reservation(harts: &[Hart]) -> bool
    ensures none { result ≡ false → All IsFree harts.now }
{
    harts.iter().any(|hart| hart.reservation.is_some())
}

fn end_touched(harts: &mut Vec<Hart>, address: u64, size: u64)
    ensures value { harts.new.items ≡ map (touched address size) harts.old.items }
{
    for hart in harts.iter_mut() {
        touch(hart, address, size);
    }
}

fn end_all(harts: &mut Vec<Hart>)
    ensures value { harts.new.items ≡ map unreserved harts.old.items }
{
    for hart in harts.iter_mut() {
        release(hart);
    }
}
