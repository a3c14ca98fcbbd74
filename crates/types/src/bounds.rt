ghost use Rattle.std.specs.Prelude.{◌≡◌};
ghost use Rattle.types.specs.Limits.{limits};

// Bytes of a key, of a string or byte scalar, of a splice.
pub const KEY_BYTES: usize = 64;

pub const SCALAR_BYTES: usize = 256;

pub const SPLICE_BYTES: usize = 32768;

// The highest position, the longest deletion (the shortest is 1), the steps
// of a path.
pub const LAST_POSITION: usize = 1048575;

pub const DELETION_LENGTH: usize = 1048576;

pub const PATH_STEPS: usize = 16;

// What a log holds; its bytes are those of keys, scalars and splices.
pub const LOG_EVENTS: usize = 2048;

pub const LOG_EXPOSED: usize = 256;

pub const LOG_BYTES: usize = 32768;

// What a builder holds; its bytes are those of keys, path keys and scalars.
pub const BUILDER_PATCHES: usize = 4096;

pub const BUILDER_VALUES: usize = 4096;

pub const BUILDER_UNITS: usize = 32768;

pub const BUILDER_BYTES: usize = 32768;

// What a value holds, over all depths.
pub const VALUE_ENTRIES: usize = 4096;

pub const VALUE_UNITS: usize = 32768;

pub const VALUE_BYTES: usize = 32768;

// The places of the exposure queue, the objects of a document, the bytes of
// a record.
pub const QUEUE_PLACES: usize = 1280;

pub const DOCUMENT_OBJECTS: usize = 1024;

pub const RECORD_BYTES: usize = 65536;

// All bounds in one value, for a program that prints or compares them.
#[derive(Clone, Copy)]
pub struct Bounds {
    pub key_bytes: usize,
    pub scalar_bytes: usize,
    pub splice_bytes: usize,
    pub last_position: usize,
    pub deletion_length: usize,
    pub path_steps: usize,
    pub log_events: usize,
    pub log_exposed: usize,
    pub log_bytes: usize,
    pub builder_patches: usize,
    pub builder_values: usize,
    pub builder_units: usize,
    pub builder_bytes: usize,
    pub value_entries: usize,
    pub value_units: usize,
    pub value_bytes: usize,
    pub queue_places: usize,
    pub document_objects: usize,
    pub record_bytes: usize,
}

pub fn all_bounds() -> Bounds
    ensures { result ≡ limits }
{
    Bounds {
        key_bytes: KEY_BYTES,
        scalar_bytes: SCALAR_BYTES,
        splice_bytes: SPLICE_BYTES,
        last_position: LAST_POSITION,
        deletion_length: DELETION_LENGTH,
        path_steps: PATH_STEPS,
        log_events: LOG_EVENTS,
        log_exposed: LOG_EXPOSED,
        log_bytes: LOG_BYTES,
        builder_patches: BUILDER_PATCHES,
        builder_values: BUILDER_VALUES,
        builder_units: BUILDER_UNITS,
        builder_bytes: BUILDER_BYTES,
        value_entries: VALUE_ENTRIES,
        value_units: VALUE_UNITS,
        value_bytes: VALUE_BYTES,
        queue_places: QUEUE_PLACES,
        document_objects: DOCUMENT_OBJECTS,
        record_bytes: RECORD_BYTES,
    }
}
