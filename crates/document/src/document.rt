ghost use Rattle.std.specs.Prelude.{◌≡◌};
ghost use Rattle.meaning.specs.Entries.{rank};
ghost use Rattle.meaning.specs.Documents.{find};
ghost use Rattle.document.specs.Lawful.{LawfulDoc};
ghost use Rattle.document.specs.Places.{head_told, size_told, entry_told, text_told};
ghost use Rattle.document.specs.Views.{an_entry_seen, bytes_seen};

use crate::view::{Entry, Head};
use types::types::ObjId;

// A document by the identities of its objects. What is asked changes nothing.
pub trait Document {
    ghost rows: { Self → LawfulDoc };

    // Kind and parent of an object; none where the identity is no object's.
    fn object(&self, id: ObjId) -> Option<Head>
        ensures { result ≡ head_told (find (rows self.now).doc (rank id)) };

    // How many entries its row has, or how many bytes it has as a text; 0
    // where no object is.
    fn size(&self, id: ObjId) -> usize
        ensures { result ≡ size_told (find (rows self.now).doc (rank id)) };

    // The n-th entry of its row; none past the last, in a text, and where no
    // object is.
    fn entry(&self, id: ObjId, n: usize) -> Option<Entry<'_>>
        ensures { an_entry_seen result ≡ entry_told (find (rows self.now).doc (rank id)) n };

    // Its bytes, where it is a text.
    fn text(&self, id: ObjId) -> Option<&[u8]>
        ensures { bytes_seen result ≡ text_told (find (rows self.now).doc (rank id)) };
}
