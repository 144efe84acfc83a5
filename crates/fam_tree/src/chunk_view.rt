//! Chunks as a search looks at them: what leads to an entry is read once, and not again at each place.

ghost use Rattle.std.specs.Prelude.{◌≡◌, ◌<◌, length, slice_get};
ghost use Rattle.fam_tree.specs.Runs.{entry_at};

use crate::chunk::Chunk;
use crate::entry_list::EntryList;
use crate::packed::CHUNK;
use std::marker::Model;

/// The full chunks of a list, and the entries of the last one, where there are any.
#[derive(Drop)]
pub(crate) struct ChunkView<'a> {
    pub(crate) full: &'a [Chunk],
    pub(crate) last: Option<&'a EntryList>,
}

impl<'a> Model for ChunkView<'a> {
    ghost use Rattle.std.specs.Prelude.{List, option_map};
    ghost use Rattle.std.specs.Coded.{coded_list};
    ghost use Rattle.fam_base.specs.declared.entry.Entry.{Entry};
    ghost use Rattle.fam_base.specs.contracts.entry.Entry as entry_type;
    ghost use Rattle.fam_tree.specs.Chunks.{ArePacked, entries_held, packed_entries};

    ghost Value = { List Entry };

    ghost coded = { coded_list entry_type.the_row.coded };

    ghost view = { λ v. packed_entries v.full.now (entries_held (option_map (λ l. l.now) v.last)) };

    ghost invariant = { λ v. ArePacked v.full.now (entries_held (option_map (λ l. l.now) v.last)) };
}

impl<'a> ChunkView<'a> {
    /// The list in which the entry at a place stands, and where.
    #[inline(always)]
    pub(crate) fn find(&self, place: usize) -> (&'a EntryList, usize)
        requires { place < length self.now }
        ensures { slice_get result.0.now result.1 ≡ slice_get self.now place }
    {
        let i = place % CHUNK;
        match self.full.get(place / CHUNK) {
            Some(chunk) => (chunk.entries(), i),
            None => match self.last {
                Some(last) => (last, i),
                None => unreachable!(),
            },
        }
    }

    /// The bytes of the path of the entry at a place.
    #[inline(always)]
    pub(crate) fn path_at(&self, place: usize) -> &'a [u8]
        requires { place < length self.now }
        ensures { result.now ≡ (entry_at self.now place).path }
    {
        let (list, i) = self.find(place);
        list.path_at(i)
    }
}
