//! How many lines a text has.

ghost use Rattle.std.specs.Prelude.{◌≡◌, length};
ghost use Rattle.fam_tree.specs.Cuts.{back};
ghost use Rattle.fam_tree.specs.Lines.{line_feed};
ghost use Rattle.fam_tree.specs.Listings.{text_lines};

/// What stands behind the first line feed.
fn behind(bytes: &[u8]) -> &[u8]
    ensures { result.now ≡ back line_feed bytes.now }
{
    for (i, byte) in bytes.iter().enumerate() {
        if *byte == b'\n' {
            return &bytes[i + 1..];
        }
    }
    &[]
}

/// How many lines a text has.
pub(crate) fn line_count(bytes: &[u8]) -> u64
    ensures { result ≡ length (text_lines bytes.now) }
{
    let mut count = 0;
    let mut rest = bytes;
    while !rest.is_empty() {
        rest = behind(rest);
        count += 1;
    }
    count
}
