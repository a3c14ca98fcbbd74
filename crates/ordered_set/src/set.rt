ghost use Rattle.std.specs.Prelude.{◌≡◌, ◌+◌, ◌-◌, ◌<◌, ◌≤◌, true, [], length, take, is_ok, if◌then◌else◌};
ghost use Rattle.std.specs.List.{slice_get};
ghost use Rattle.sequence_tree.specs.Lists.{spliced};
ghost use Rattle.ordered_set.specs.Orders.{Order};
ghost use Rattle.ordered_set.specs.Sets.{Rising, has, before, found, members, Ordered, With, Without, putting, put};

use crate::order::TotalOrder;
use sequence_tree::error::SequenceError;
use sequence_tree::places::{insert_one, remove_one};
use std::cmp::Ordering;

// Where x stands among items that rise, or where it would go. By hand: the
// library's search goes on after it has met x, and comparing is what costs.
pub fn find<O: TotalOrder>(order: &O, items: &[O::Item], x: O::Item) -> Result<usize, usize>
    requires { Rising (O.TotalOrder.order order.now) items.now }
    ensures { result ≡ found (O.TotalOrder.order order.now) x items.now }
{
    let mut low = 0;
    let mut high = items.len();
    while low < high {
        let mid = low + (high - low) / 2;
        match order.compare(items[mid], x) {
            Ordering::Less => low = mid + 1,
            Ordering::Greater => high = mid,
            Ordering::Equal => return Ok(mid),
        }
    }
    Err(low)
}

// How many of the places an ordered set has in use. Each call is lent the places and the order: an
// order may borrow keys that the caller changes between two calls, so no set can hold it, nor then
// hold that its places rise in it.
#[derive(Clone, Copy)]
pub struct OrderedSet {
    len: usize,
}

impl OrderedSet {
    // The empty set.
    pub fn new() -> OrderedSet
        ensures { result.len ≡ 0 }
    {
        OrderedSet { len: 0 }
    }

    pub fn len(&self) -> usize
        ensures { result ≡ self.now.len }
    {
        self.len
    }

    // Where x stands, or where it would go.
    pub fn find<O: TotalOrder>(
        &self,
        order: &O,
        places: &[O::Item],
        x: O::Item,
    ) -> Result<usize, usize>
        requires { Ordered (O.TotalOrder.order order.now) self.now places.now }
        ensures { result ≡ found (O.TotalOrder.order order.now) x (members self.now places.now) }
    {
        find(order, &places[..self.len], x)
    }

    pub fn contains<O: TotalOrder>(&self, order: &O, places: &[O::Item], x: O::Item) -> bool
        requires { Ordered (O.TotalOrder.order order.now) self.now places.now }
        ensures { result ≡ has (O.TotalOrder.order order.now) x (members self.now places.now) }
    {
        self.find(order, places, x).is_ok()
    }

    // Puts x in, unless it is there: whether it was new.
    pub fn insert<O: TotalOrder>(
        &mut self,
        order: &O,
        places: &mut [O::Item],
        x: O::Item,
    ) -> Result<bool, SequenceError>
        requires { Ordered (O.TotalOrder.order order.now) self.old places.old }
        ensures ordered { Ordered (O.TotalOrder.order order.now) self.new places.new }
        ensures answer { result ≡ putting (O.TotalOrder.order order.now) x (members self.old places.old) (length places.old) }
        ensures members { members self.new places.new ≡ put (O.TotalOrder.order order.now) x (members self.old places.old) (length places.old) }
        ensures with { is_ok result ≡ true → With (O.TotalOrder.order order.now) x (members self.old places.old) (members self.new places.new) }
    {
        let Err(at) = self.find(order, places, x) else {
            return Ok(false);
        };
        if self.len >= places.len() {
            return Err(SequenceError::Full);
        }
        insert_one(places, self.len, at, x);
        self.len += 1;
        Ok(true)
    }

    // Takes x out: whether it was there.
    pub fn remove<O: TotalOrder>(&mut self, order: &O, places: &mut [O::Item], x: O::Item) -> bool
        requires { Ordered (O.TotalOrder.order order.now) self.old places.old }
        ensures ordered { Ordered (O.TotalOrder.order order.now) self.new places.new }
        ensures answer { result ≡ has (O.TotalOrder.order order.now) x (members self.old places.old) }
        ensures members { members self.new places.new ≡ (if result then spliced (members self.old places.old) (before (O.TotalOrder.order order.now) x (members self.old places.old)) 1 [] else members self.old places.old) }
        ensures without { Without (O.TotalOrder.order order.now) x (members self.old places.old) (members self.new places.new) }
    {
        let Ok(at) = self.find(order, places, x) else {
            return false;
        };
        remove_one(places, self.len, at);
        self.len -= 1;
        true
    }

    // The least.
    pub fn first<T: Copy>(&self, places: &[T]) -> Option<T>
        requires { self.now.len ≤ length places.now }
        ensures { result ≡ slice_get (members self.now places.now) 0 }
    {
        places[..self.len].first().copied()
    }

    // Takes the least out.
    pub fn remove_first<T: Copy>(&mut self, places: &mut [T]) -> Option<T>
        requires { self.old.len ≤ length places.old }
        ensures answer { result ≡ slice_get (members self.old places.old) 0 }
        ensures fits { self.new.len ≤ length places.new }
        ensures members { members self.new places.new ≡ spliced (members self.old places.old) 0 1 [] }
        ensures ordered { (o : Order T) → Ordered o.compare self.old places.old → Ordered o.compare self.new places.new }
    {
        let least = self.first(places)?;
        remove_one(places, self.len, 0);
        self.len -= 1;
        Some(least)
    }
}
