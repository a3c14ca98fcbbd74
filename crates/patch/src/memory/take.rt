ghost use Rattle.std.specs.Prelude.{◌≡◌, []};
ghost use Rattle.meaning.specs.Builder.{load};
ghost use Rattle.patch.specs.Held.{held_of, flags_of};
ghost use Rattle.patch.specs.Taken.{load_told};

use super::PatchMemory;
use crate::batch::Batch;

impl<'m, U: Copy> PatchMemory<'m, U> {
    // The receipt for what is held, which stays until the receipt is spent.
    #[tactic(auto, using(crate::proofs::Tell::load_held))]
    pub fn take(&mut self) -> Batch
        ensures counts { load_told result ≡ load (held_of self.old) }
        ensures held { held_of self.new ≡ held_of self.old }
        ensures wide { flags_of self.new ≡ flags_of self.old }
    {
        Batch {
            patches: self.rows.len(),
            values: self.values.len(),
            units: self.units.len(),
            bytes: self.bytes.len(),
        }
    }

    // No patch is held any more.
    pub fn clear(&mut self)
        ensures held { held_of self.new ≡ [] }
        ensures wide { flags_of self.new ≡ [] }
    {
        self.rows.clear();
        self.steps.clear();
        self.values.clear();
        self.units.clear();
        self.bytes.clear();
    }

    // Spends the receipt without applying the patches, which are gone then.
    pub fn discard(&mut self, batch: Batch)
        ensures held { held_of self.new ≡ [] }
        ensures wide { flags_of self.new ≡ [] }
    {
        let Batch {
            patches: _,
            values: _,
            units: _,
            bytes: _,
        } = batch;
        self.clear();
    }
}
