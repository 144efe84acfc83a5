//! The world. Its calls stand in the files of `world/`.

ghost use Rattle.std.specs.Prelude.{◌≡◌, option_map, slice_get};
ghost use Rattle.fam_journal.specs.View.{HostView, empty_world};
ghost use Rattle.fam_world.specs.View.{notes_view};

mod make;
mod moves;
mod steps;
mod without_media;

use crate::hosts::Host;
use fam_base::HostName;
use fam_journal::HostId;
use fam_notes::Note;
use std::alloc::Global;
use std::marker::Model;

/// Any number of hosts over one memory, each with its cache and at most one task, and the journal of what they do.
#[derive(Drop)]
pub struct World {
    alloc: Global,
    hosts: Vec<Host>,
    journal: Vec<Note>,
}

impl Model for World {
    ghost use Rattle.std.specs.Prelude.{◌≤◌, vec_len};
    ghost use Rattle.std.specs.Coded.{codes, coded_list, coded_ℕ};
    ghost use Rattle.std.specs.FinMap as map;
    ghost use Rattle.fam_base.specs.PathOrder.{path_cmp};
    ghost use Rattle.fam_base.specs.contracts.entry.Entry as entry_type;
    ghost use Rattle.fam_machine.specs.Caches.{cache_code};
    ghost use Rattle.fam_journal.specs.View.{WorldView};

    ghost Value = { WorldView };

    ghost coded = { Prim.hlevel (codes, cache_code, map.code {R = path_cmp} (coded_list coded_ℕ) entry_type.the_row.coded) };

    ghost use Rattle.fam_world.specs.View.{world_view};

    ghost view = { λ w. world_view w.hosts.items w.journal.items };

    ghost invariant = { λ w. vec_len w.hosts ≤ 64 };
}

impl World {
    /// A world in which no host is declared.
    pub fn new(alloc: Global) -> World
        ensures { result ≡ empty_world }
    {
        World {
            alloc,
            hosts: Vec::new(alloc),
            journal: Vec::new(alloc),
        }
    }

    /// The notes so far.
    pub fn journal(&self) -> &[Note]
        ensures { notes_view result.now ≡ self.now.journal }
    {
        self.journal.as_slice()
    }

    /// The name of a host; None where it isn't declared.
    pub fn name(&self, host: HostId) -> Option<HostName>
        ensures { result ≡ option_map (λ (v : HostView). v.name) (slice_get self.now.hosts host.0) }
    {
        match self.hosts.get(host.0 as usize) {
            Some(host) => Some(host.name),
            None => None,
        }
    }
}
