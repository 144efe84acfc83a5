//! A borrowed entry, which copies neither its path nor its extents.
//!
//! A contract sees an `EntryRef` as the entry. `specs/Borrowed.antt` says of which fields one is made.

ghost use Rattle.std.specs.Prelude.{◌≡◌, ◌≤◌, IsTrue, length};
ghost use Rattle.fam_base.specs.ExtentLists.{extent_limit};
ghost use Rattle.fam_base.specs.Paths.{is_path};

use fam_base::{Entry, Extent, Extents, Kind, MapKind, PATH_LIMIT, Path};
use std::marker::Model;

/// The fields of an entry, with its path and its extents where these stand. The bytes of the path are one, and there are at
/// most sixteen extents.
#[derive(Drop)]
pub struct EntryRef<'a> {
    pub kind: Kind,
    pub map: MapKind,
    pub size: u64,
    pub mode: u32,
    pub uid: u32,
    pub gid: u32,
    pub path: &'a [u8],
    pub extents: &'a [Extent],
}

impl<'a> Model for EntryRef<'a> {
    ghost use Rattle.fam_base.specs.declared.entry.Entry.{Entry};
    ghost use Rattle.fam_base.specs.contracts.entry.Entry as entry_type;
    ghost use Rattle.fam_tree.specs.Borrowed.{IsBorrowed, made_of};

    ghost Value = { Entry };

    ghost coded = { entry_type.the_row.coded };

    ghost view = { λ e. made_of e.kind e.map e.size e.mode e.uid e.gid e.path.now e.extents.now };

    ghost invariant = { λ e. IsBorrowed e.path.now e.extents.now };
}

/// The path of bytes that are one. They are copied, and not looked at.
#[tactic(auto, unfolding(fam_base::specs::Paths::is_path))]
#[inline]
fn path_of(bytes: &[u8]) -> Path
    requires { IsTrue (is_path bytes.now) }
    ensures { result ≡ bytes.now }
{
    let len = bytes.len();
    let mut field = [0; PATH_LIMIT];
    field[..len].copy_from_slice(bytes);
    Path::in_field(&field, len)
}

/// At most sixteen extents.
#[inline]
fn extents_of(items: &[Extent]) -> Extents
    requires { length items.now ≤ extent_limit }
    ensures { result ≡ items.now }
{
    let mut extents = Extents::new();
    for item in items {
        let _ = extents.push(*item);
    }
    extents
}

impl<'a> EntryRef<'a> {
    /// An entry, borrowed.
    #[inline]
    pub fn of(entry: &'a Entry) -> EntryRef<'a>
        ensures { result ≡ entry.now }
    {
        EntryRef {
            kind: entry.kind,
            map: entry.map,
            size: entry.size,
            mode: entry.mode,
            uid: entry.uid,
            gid: entry.gid,
            path: entry.path.bytes(),
            extents: entry.extents.as_slice(),
        }
    }

    /// What stands at its path.
    #[inline(always)]
    pub fn kind(&self) -> Kind
        ensures { result ≡ self.now.kind }
    {
        self.kind
    }

    /// How its bytes lie in its extents.
    #[inline(always)]
    pub fn map(&self) -> MapKind
        ensures { result ≡ self.now.map }
    {
        self.map
    }

    /// How many bytes it has.
    #[inline(always)]
    pub fn size(&self) -> u64
        ensures { result ≡ self.now.size }
    {
        self.size
    }

    /// Its mode.
    #[inline(always)]
    pub fn mode(&self) -> u32
        ensures { result ≡ self.now.mode }
    {
        self.mode
    }

    /// The number of its user.
    #[inline(always)]
    pub fn uid(&self) -> u32
        ensures { result ≡ self.now.uid }
    {
        self.uid
    }

    /// The number of its group.
    #[inline(always)]
    pub fn gid(&self) -> u32
        ensures { result ≡ self.now.gid }
    {
        self.gid
    }

    /// The bytes of its path.
    #[inline(always)]
    pub fn path(&self) -> &'a [u8]
        ensures same { result.now ≡ self.now.path }
        ensures path { IsTrue (is_path self.now.path) }
    {
        self.path
    }

    /// Its extents in their order.
    #[inline(always)]
    pub fn extents(&self) -> &'a [Extent]
        ensures same { result.now ≡ self.now.extents }
        ensures few { length self.now.extents ≤ extent_limit }
    {
        self.extents
    }

    /// Its extents, copied.
    pub fn to_extents(&self) -> Extents
        ensures { result ≡ self.now.extents }
    {
        extents_of(self.extents)
    }

    /// The entry, copied.
    pub fn to_entry(&self) -> Entry
        ensures { result ≡ self.now }
    {
        Entry {
            kind: self.kind,
            path: path_of(self.path),
            size: self.size,
            mode: self.mode,
            uid: self.uid,
            gid: self.gid,
            map: self.map,
            extents: extents_of(self.extents),
        }
    }
}
