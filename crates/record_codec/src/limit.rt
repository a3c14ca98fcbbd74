ghost use Rattle.std.specs.Prelude.{◌≡◌};
ghost use Rattle.types.specs.Limits.{limits};
ghost use Rattle.record_codec.specs.Theorems.{WrittenIsRead, ReadWasWritten, OneDocument};

use types::bounds::RECORD_BYTES;

// A record and its document tell each other.
fn layout_laws()
    ensures written { WrittenIsRead }
    ensures read { ReadWasWritten }
    ensures one { OneDocument }
{}

// The most bytes that a record has. Up to there what is written is read
// again, what is read was written, and two documents never have one record.
pub fn most_bytes() -> usize
    ensures bound { result ≡ limits.record_bytes }
    ensures written { WrittenIsRead }
    ensures read { ReadWasWritten }
    ensures one { OneDocument }
{
    layout_laws();
    RECORD_BYTES
}
