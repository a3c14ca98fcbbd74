// Many rows in one lent slice of places.
ghost use Rattle.std.specs.Prelude.{◌^◌, ◌<◌, length};
ghost use Rattle.packed_rows.specs.Rows.{Packed};

mod calls;

// Both slices are lent by the caller, who bounds the memory.
#[derive(Drop)]
pub struct PackedRows<'m, T> {
    places: &'m mut [T],
    starts: &'m mut [u32],
    ghost packed: { Packed starts.now places.now },
    ghost small: { length places.now < 2 ^ 32 },
}
