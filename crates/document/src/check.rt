ghost use Rattle.std.specs.Prelude.{◌≡◌, true, Decides};
ghost use Rattle.meaning.specs.Documents.{Lawful};
ghost use Rattle.document.specs.Laws.{lawful, topped};

use crate::counts::check_counts;
use crate::names::check_all_names;
use crate::rising::Rising;
use crate::row::check_each_row;
use crate::rows::Rows;
use types::bounds::DOCUMENT_OBJECTS;

// Whether rows keep all laws of documents. The test is the laws.
pub fn check_rows<R: Rows>(rows: &R) -> bool
    ensures test { result ≡ lawful (R.shaped rows.now).doc }
    ensures laws { Decides result (Lawful (R.shaped rows.now).doc × (topped (R.shaped rows.now).doc ≡ true)) }
{
    if rows.count() > DOCUMENT_OBJECTS {
        return false;
    }
    let Some(rising) = Rising::check(rows) else {
        return false;
    };
    rising.check_root()
        && rising.check_children()
        && check_counts(rows)
        && check_each_row(rows)
        && check_all_names(rising)
}
