//! A task's units, lent so that several reads need one lookup of the task.
ghost use Rattle.std.specs.Prelude.{◌≡◌, ◌≢◌, ◌<◌, ◌≤◌, ◌+◌, [], ℕ, Some, length, slice_get, true, false};
ghost use Rattle.msrp_plan.specs.declared.units.Op.TheVariants.{Run};

use crate::units::Op;
use std::marker::Model;

fn unit_at(units: &[Op], place: usize) -> Op
    requires { place < length units.now }
    ensures { slice_get units.now place ≡ Some result }
{
    units[place]
}

/// A task's units, lent by [`Plan::units_of`](crate::Plan::units_of), found by one lookup.
#[derive(Drop)]
pub struct Units<'a> {
    units: &'a [Op],
}

impl<'a> Model for Units<'a> {
    ghost use Rattle.std.specs.Prelude.{List};
    ghost use Rattle.msrp_plan.specs.declared.units.Op.{Op};

    ghost Value = { List Op };

    ghost view = { λ units. units.units.now };
}

impl<'a> Units<'a> {
    pub(crate) fn all(units: &'a [Op]) -> Units<'a>
        ensures { result ≡ units.now }
    {
        Units { units }
    }

    /// No units.
    pub fn none() -> Units<'a>
        ensures { result ≡ [] }
    {
        Units { units: &[] }
    }

    /// The number of units.
    pub fn len(&self) -> usize
        ensures { result ≡ length self.now }
    {
        self.units.len()
    }

    /// The unit at an index, from 0.
    pub fn unit(&self, place: usize) -> Op
        requires { place < length self.now }
        ensures { slice_get self.now place ≡ Some result }
    {
        unit_at(self.units, place)
    }

    fn is_work(&self, place: usize) -> bool
        ensures works { result ≡ true → slice_get self.now place ≡ Some Run }
        ensures other { result ≡ false → slice_get self.now place ≢ Some Run }
    {
        matches!(self.units.get(place), Some(Op::Run))
    }

    /// How many consecutive units from `place` on are work, counted up to `most`.
    pub fn work(&self, place: u32, most: u32) -> u32
        ensures most { result ≤ most }
        ensures work { (i : ℕ) → place ≤ i → i < place + result → slice_get self.now i ≡ Some Run }
        ensures next { result < most → slice_get self.now (place + result) ≢ Some Run }
    {
        let mut count = 0;
        while count < most && self.is_work(place as usize + count as usize) {
            count += 1;
        }
        count
    }
}
