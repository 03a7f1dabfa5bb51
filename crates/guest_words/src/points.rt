ghost use Rattle.std.specs.Prelude.{◌≡◌, IfOk};
ghost use Rattle.guest_words.specs.Points.{active_at, code_of, has_loose, spent, spent_at, IsPointList};

use crate::fault::FaultName;
use crate::memory_want::MemoryWant;
use crate::point::{Point, PointRef, Ret};
use std::alloc::Global;
use std::marker::Model;

/// The points of a rescue file: at most 256, no two at one entry.
#[derive(Drop)]
pub struct Points {
    items: Vec<Point>,
}

impl Model for Points {
    ghost use Rattle.std.specs.Prelude.{List};
    ghost use Rattle.guest_words.specs.declared.point.Point.{Point};
    ghost use Rattle.guest_words.specs.Points.{IsPointList};

    ghost Value = { List Point };

    ghost view = { λ p. p.items.items };

    ghost invariant = { λ p. IsPointList p.items.items };
}

impl Points {
    /// The points of the `Vec`, which is kept as it is.
    pub fn of(items: Vec<Point>) -> Points
        requires points { IsPointList items.items }
        ensures list { result ≡ items.items }
    {
        Points { items }
    }

    /// The points, in the order of the file.
    pub fn items(&self) -> &[Point]
        ensures list { result.now ≡ self.now }
        ensures points { IsPointList self.now }
    {
        self.items.as_slice()
    }

    /// The active point whose entry is `pc`; None exactly where there is none.
    pub fn active_at(&self, pc: u64) -> Option<PointRef>
        ensures value { result ≡ active_at self.now pc }
    {
        self.items
            .iter()
            .find(|p| p.is_active() && p.entry == pc)
            .map(|p| p.reference())
    }

    /// What a call of the point with this entry returns for a fault; Void where there is no point.
    pub fn code(&self, entry: u64, name: FaultName) -> Ret
        ensures value { result ≡ code_of self.now entry name }
    {
        self.items
            .iter()
            .find(|p| p.entry == entry)
            .map(|p| p.code(name))
            .unwrap_or(Ret::Void)
    }

    /// Takes one from the rescues that are left to the point with this entry, if they are counted
    /// and one is. Takes no memory.
    pub fn spend(&mut self, entry: u64)
        ensures value { self.new ≡ spent self.old entry }
    {
        spend_at(&mut self.items, entry);
    }

    /// Whether a point is loose. Takes no memory.
    pub fn has_loose(&self) -> bool
        ensures value { result ≡ has_loose self.now }
    {
        self.items.iter().any(|p| p.is_loose())
    }

    /// An equal list.
    pub fn copy(&self, alloc: Global) -> Result<Points, MemoryWant>
        ensures ok { IfOk result (λ points. points ≡ self.now) }
    {
        Ok(Points {
            items: self.items.as_slice().to_vec(alloc)?,
        })
    }
}

fn spend_at(points: &mut Vec<Point>, entry: u64)
    ensures value { points.new.items ≡ spent points.old.items entry }
{
    for point in points.iter_mut() {
        spend_one(point, entry);
    }
}

fn spend_one(point: &mut Point, entry: u64)
    ensures value { point.new ≡ spent_at entry point.old }
{
    if point.entry == entry {
        point.spend();
    }
}
