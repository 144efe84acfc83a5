//! What an entry of a packed list has of fixed size. `specs/Rows.antt` says where its path and its extents stand.

ghost use Rattle.std.specs.Prelude.{◌≡◌, ◌+◌, ◌≤◌, IfSome, length};
ghost use Rattle.fam_tree.specs.Rows.{IsRow, entry_of, extents_in, path_in, row_of};

use crate::entry_ref::EntryRef;
use fam_base::{Entry, Extent, Kind, MapKind};

/// How many places a row can tell from one another.
const PLACES: usize = 0x1_0000_0000;

/// An entry but for its path and its extents, and where these stand among those of all entries of its list.
#[derive(Clone, Copy)]
pub(crate) struct Row {
    pub(crate) map: MapKind,
    pub(crate) size: u64,
    /// Where its path begins, in bytes.
    pub(crate) path_start: u32,
    /// Where its extents begin, in extents.
    pub(crate) extents_start: u32,
    pub(crate) mode: u32,
    pub(crate) uid: u32,
    pub(crate) gid: u32,
    /// How many bytes its path has.
    pub(crate) path_len: u16,
    pub(crate) kind: Kind,
    /// How many extents it has.
    pub(crate) extents_len: u8,
}

impl Row {
    /// The row of an entry whose path and extents begin at these places. `None` comes where a place is too far back.
    #[tactic(auto, unfolding(fam_base::specs::Paths::is_path))]
    #[inline]
    pub(crate) fn new(entry: &EntryRef<'_>, path_start: usize, extents_start: usize) -> Option<Row>
        ensures { IfSome result (λ row. row ≡ row_of entry.now path_start extents_start) }
    {
        if path_start >= PLACES || extents_start >= PLACES {
            return None;
        }
        Some(Row {
            map: entry.map(),
            size: entry.size(),
            path_start: path_start as u32,
            extents_start: extents_start as u32,
            mode: entry.mode(),
            uid: entry.uid(),
            gid: entry.gid(),
            path_len: entry.path().len() as u16,
            kind: entry.kind(),
            extents_len: entry.extents().len() as u8,
        })
    }

    /// The bytes of its path.
    #[inline(always)]
    pub(crate) fn path<'a>(&self, paths: &'a [u8]) -> &'a [u8]
        requires { self.now.path_start + self.now.path_len ≤ length paths.now }
        ensures { result.now ≡ path_in paths.now self.now }
    {
        let start = self.path_start as usize;
        &paths[start..start + self.path_len as usize]
    }

    /// Its extents.
    #[inline(always)]
    fn extents<'a>(&self, extents: &'a [Extent]) -> &'a [Extent]
        requires { self.now.extents_start + self.now.extents_len ≤ length extents.now }
        ensures { result.now ≡ extents_in extents.now self.now }
    {
        let start = self.extents_start as usize;
        &extents[start..start + self.extents_len as usize]
    }

    /// Its entry, borrowed.
    #[inline(always)]
    pub(crate) fn borrowed<'a>(&self, paths: &'a [u8], extents: &'a [Extent]) -> EntryRef<'a>
        requires { IsRow paths.now extents.now self.now }
        ensures { result ≡ entry_of paths.now extents.now self.now }
    {
        EntryRef {
            kind: self.kind,
            map: self.map,
            size: self.size,
            mode: self.mode,
            uid: self.uid,
            gid: self.gid,
            path: self.path(paths),
            extents: self.extents(extents),
        }
    }

    /// Its entry.
    #[inline]
    pub(crate) fn entry(&self, paths: &[u8], extents: &[Extent]) -> Entry
        requires { IsRow paths.now extents.now self.now }
        ensures { result ≡ entry_of paths.now extents.now self.now }
    {
        self.borrowed(paths, extents).to_entry()
    }
}
