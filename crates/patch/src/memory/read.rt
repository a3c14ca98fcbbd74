ghost use Rattle.std.specs.Prelude.{◌≡◌, reverse, take, drop};
ghost use Rattle.patch.specs.Rows.{values_in, units_in};
ghost use Rattle.patch.specs.Held.{held_of};
ghost use Rattle.patch.specs.Walk.{rest_at, Walked};

use super::PatchMemory;
use crate::rows::ActionRow;
use crate::view::{Cursor, PatchView};

impl ActionRow {
    // How many values it has.
    fn value_count(self) -> usize
        ensures { result ≡ values_in self }
    {
        match self {
            ActionRow::Insert(_, n, _) => n,
            _ => 0,
        }
    }

    // How many units it has.
    fn unit_count(self) -> usize
        ensures { result ≡ units_in self }
    {
        match self {
            ActionRow::SpliceText(_, n) => n,
            _ => 0,
        }
    }
}

// The n elements from `at` on, or as many as there are, and the place past them.
fn part<T>(s: &[T], at: usize, n: usize) -> (&[T], usize)
    ensures here { result.0.now ≡ take n (drop at s.now) }
    ensures past { drop result.1 s.now ≡ drop n (drop at s.now) }
{
    let from = at.min(s.len());
    let to = from + n.min(s.len() - from);
    (&s[from..to], to)
}

impl Cursor {
    // The place of the oldest patch.
    const START: Cursor = Cursor {
        row: 0,
        step: 0,
        value: 0,
        unit: 0,
        byte: 0,
    };
}

impl<'m, U: Copy> PatchMemory<'m, U> {
    // The place of the oldest patch. From there, reading forward gives all
    // that are held.
    #[tactic(auto, using(crate::proofs::Forward::from_start))]
    pub fn first(&self) -> Cursor
        ensures { rest_at self.now result ≡ reverse (held_of self.now) }
    {
        Cursor::START
    }

    // The patch at a place, and the place of the next; none past the last.
    #[tactic(auto, using(crate::proofs::Walks::nth_none, crate::proofs::Walks::nth_some, crate::proofs::Bounds::rows_within, std::proofs::lemmas::Option::slice_get_within))]
    pub fn next(&self, at: Cursor) -> Option<(PatchView<'_, U>, Cursor)>
        ensures { Walked self.now at result }
    {
        let row = self.rows.get(at.row)?;
        let (steps, step) = part(self.steps.as_slice(), at.step, row.steps);
        let (values, value) = part(self.values.as_slice(), at.value, row.action.value_count());
        let (units, unit) = part(self.units.as_slice(), at.unit, row.action.unit_count());
        let (bytes, byte) = part(self.bytes.as_slice(), at.byte, row.bytes);
        let patch = PatchView {
            row,
            steps,
            values,
            units,
            bytes,
        };
        let next = Cursor {
            row: at.row + 1,
            step,
            value,
            unit,
            byte,
        };
        Some((patch, next))
    }
}
