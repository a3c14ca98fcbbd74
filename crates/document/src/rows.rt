ghost use Rattle.std.specs.Prelude.{◌≡◌, length};
ghost use Rattle.document.specs.Places.{Shaped, nth, head_told, size_told, entry_told, text_told};
ghost use Rattle.document.specs.Views.{an_entry_seen, bytes_seen};

use crate::view::{Entry, Head};

// What a document tells by place, before anything is known of its laws.
pub trait Rows {
    ghost shaped: { Self → Shaped };

    // How many objects there are.
    fn count(&self) -> usize
        ensures { result ≡ length (shaped self.now).doc };

    // The object at a place; none past the last.
    fn head(&self, i: usize) -> Option<Head>
        ensures { result ≡ head_told (nth (shaped self.now).doc i) };

    // How many entries its row has, or how many bytes it has as a text.
    fn size(&self, i: usize) -> usize
        ensures { result ≡ size_told (nth (shaped self.now).doc i) };

    // The n-th entry of its row; none past the last, and none in a text.
    fn entry(&self, i: usize, n: usize) -> Option<Entry<'_>>
        ensures { an_entry_seen result ≡ entry_told (nth (shaped self.now).doc i) n };

    // Its bytes, where it is a text.
    fn text(&self, i: usize) -> Option<&[u8]>
        ensures { bytes_seen result ≡ text_told (nth (shaped self.now).doc i) };
}
