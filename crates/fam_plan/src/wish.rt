//! What a command wants to append.

ghost use Rattle.std.specs.Prelude.{◌≡◌, IfSome, option_map};
ghost use Rattle.fam_base.specs.Commands.{IsSoundAttr, IsSoundCmd};
ghost use Rattle.fam_rules.specs.Decide.{entry_for, wish_of};
ghost use Rattle.fam_rules.specs.DecideLaws.{IsSoundWish};
ghost use Rattle.fam_plan.specs.Wishes.{wish_in, room_in};

use crate::room::Room;
use fam_base::{Attr, Cmd, Entry, Kind, Path, Stripe};

/// What a command wants to append. A directory has no bytes.
#[derive(Clone, Copy)]
pub(crate) struct Wish {
    pub(crate) kind: Kind,
    pub(crate) path: Path,
    pub(crate) size: u64,
    pub(crate) attr: Attr,
    pub(crate) stripe: Option<Stripe>,
}

impl Wish {
    /// A directory.
    fn directory(path: &Path, attr: Attr) -> Wish
        ensures value { result ≡ record { kind = Kind.Directory; path = path.now; size = 0; attr = attr; stripe = None } }
        ensures sound { IsSoundAttr attr → IsSoundWish (wish_in result) }
    {
        // They are a path's.
        let _ = path.bytes();
        Wish {
            kind: Kind::Directory,
            path: *path,
            size: 0,
            attr,
            stripe: None,
        }
    }

    /// A file of so many bytes.
    fn file(path: &Path, size: u64, attr: Attr, stripe: Option<Stripe>) -> Wish
        ensures value { result ≡ record { kind = Kind.File; path = path.now; size = size; attr = attr; stripe = stripe } }
        ensures sound { IsSoundAttr attr → IsSoundWish (wish_in result) }
    {
        // They are a path's.
        let _ = path.bytes();
        Wish {
            kind: Kind::File,
            path: *path,
            size,
            attr,
            stripe,
        }
    }

    /// What a command wants to append, if it appends.
    pub(crate) fn of(cmd: &Cmd) -> Option<Wish>
        ensures value { option_map wish_in result ≡ wish_of cmd.now }
        ensures sound { IsSoundCmd cmd.now → IfSome result (λ wish. IsSoundWish (wish_in wish)) }
    {
        match cmd {
            Cmd::Mkdir { path, attr } => Some(Wish::directory(path, *attr)),
            Cmd::Creat {
                path,
                size,
                attr,
                stripe,
                ..
            } => Some(Wish::file(path, *size, *attr, *stripe)),
            Cmd::Cp {
                path,
                attr,
                stripe,
                bytes,
            } => Some(Wish::file(path, bytes.as_slice().len() as u64, *attr, *stripe)),
            Cmd::Logplay
            | Cmd::Mount
            | Cmd::Verify { .. }
            | Cmd::Read { .. }
            | Cmd::Check { .. }
            | Cmd::Fsck => None,
        }
    }

    /// The entry that stands for this in a room.
    pub(crate) fn entry_in(&self, room: Room) -> Entry
        ensures { result ≡ entry_for (wish_in self.now) (room_in room) }
    {
        Entry {
            kind: self.kind,
            path: self.path,
            size: self.size,
            mode: self.attr.mode,
            uid: self.attr.uid,
            gid: self.attr.gid,
            map: room.map,
            extents: room.extents,
        }
    }
}
