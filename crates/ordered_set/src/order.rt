ghost use Rattle.std.specs.Prelude.{◌≡◌};
ghost use Rattle.std.specs.declared.cmp.Ordering.{Ordering};
ghost use Rattle.std.specs.Cmp.{IsTotalOrder};

use std::cmp::Ordering;

// A total order on items. A value of such a type may hold what the items stand for.
pub trait TotalOrder {
    type Item: Copy;

    ghost order: { Self → Self.Item → Self.Item → Ordering };

    fn compare(&self, a: Self::Item, b: Self::Item) -> Ordering
        ensures { result ≡ order self.now a b };

    ghost total: { (s : Self) → IsTotalOrder (order s) };
}
