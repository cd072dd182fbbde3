//! Laws of the model of a disk.

ghost use Rattle.exam_edge.specs.Laws.{CleanWhereNoSyncFailed, PlainWhereNoSyncFailed};

/// Where no sync fails, nothing is ever suspect: a disk in memory is one of the model that knows no
/// suspect places, in which each sync settles the file, and any disk of which nothing is suspect
/// stays so.
pub fn nothing_is_suspect_where_no_sync_failed()
    // Promise: Where no sync fails, nothing is ever suspect: each sync of a disk in memory settles
    // the file, and a disk of which nothing is suspect stays so
    // - by `plain`, `clean`
    ensures plain { PlainWhereNoSyncFailed }
    ensures clean { CleanWhereNoSyncFailed }
{}
