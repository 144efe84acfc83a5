//! What stands at a name of a folder.

use fam_base::ByteText;

/// What stands at a name.
#[derive(Drop)]
pub enum Node {
    Directory,
    File(ByteText),
}
