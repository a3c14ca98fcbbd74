// The receipt for the patches that a memory holds: how many they are, and how
// many values, units and bytes they have. It cannot be let go: it is spent by
// applying or discarding the patches.
pub struct Batch {
    pub(crate) patches: usize,
    pub(crate) values: usize,
    pub(crate) units: usize,
    pub(crate) bytes: usize,
}
