//! File systems that are made, on a media of so many lines.

ghost use Rattle.std.specs.Prelude.{◌≡◌, ◌↔◌, ◌+◌, ◌*◌, ◌<◌, ◌≤◌, IsTrue, None};
ghost use Rattle.fam_format.specs.Layout.{slots_of};
ghost use Rattle.fam_format.specs.Params.{is_format, is_log_length, need};
ghost use Rattle.fam_machine.specs.Mkfs as mkfs;
ghost use Rattle.fam_rules.specs.Place.{line_bytes};
ghost use Rattle.fam_judge.specs.Standing.{HasSystemRoom, IsMadeBy, MayMake, is_need, leaves_log};
ghost use Rattle.fam_lines.specs.Hosts.{faces_of};

use crate::host::{SeenHost, engaged_in};
use fam_base::Params;
use fam_format::{LINE_BYTES, LOG_OFFSET, is_format, shape_of};
use fam_machine::is_uuid;
use fam_super::{LOG_LIMIT, is_unit};
use uuid::Uuid;

/// The fewest lines of a media that some file system fits.
const ROOM_LINES: u64 = 32_896;

/// The bytes of all units that a file system may have.
const UNITS: [u64; 10] = [
    4096, 8192, 16_384, 32_768, 65_536, 131_072, 262_144, 524_288, 1_048_576, 2_097_152,
];

/// Whether a log of this unit may have so many bytes.
fn is_log_length(unit: u64, bytes: u64) -> bool
    requires unit { 0 < unit }
    ensures { result ≡ is_log_length unit bytes }
{
    bytes > 0 && bytes % unit == 0 && bytes <= LOG_LIMIT
}

/// Whether a file system can have this unit and a log of so many bytes.
pub(crate) fn is_geometry(unit: u64, log: u64) -> bool
    ensures { result ≡ mkfs.is_geometry unit log }
{
    is_unit(unit) && is_log_length(unit, log)
}

/// Whether the media has so many bytes.
pub(crate) fn has_bytes(lines: u64, bytes: u64) -> bool
    ensures { IsTrue result ↔ (bytes ≡ line_bytes * lines) }
{
    bytes % LINE_BYTES == 0 && bytes / LINE_BYTES == lines
}

/// Whether some file system fits a media of so many lines.
pub(crate) fn has_room(lines: u64) -> bool
    ensures { IsTrue result ↔ HasSystemRoom lines }
{
    lines >= ROOM_LINES
}

/// Whether some file system fits, and no host is busy.
pub(crate) fn may_make(lines: u64, hosts: &[SeenHost]) -> bool
    ensures { IsTrue result ↔ MayMake lines (faces_of hosts.now) }
{
    has_room(lines) && engaged_in(hosts).is_none()
}

/// Whether what is left of so many bytes for a log of this unit is the length of one.
fn leaves_log(bytes: u64, unit: u64) -> bool
    requires unit { 0 < unit }
    requires small { unit ≤ 2097152 }
    ensures { result ≡ leaves_log bytes unit }
{
    is_log_length(unit, bytes.saturating_sub(LOG_OFFSET + unit))
}

/// Whether some unit and log need so many bytes.
pub(crate) fn is_need(bytes: u64) -> bool
    ensures { result ≡ is_need bytes }
{
    UNITS.iter().any(|unit| leaves_log(bytes, *unit))
}

/// Whether the slots follow from format and log.
fn has_slots(p: &Params) -> bool
    ensures { IsTrue result ↔ (p.now.slots ≡ slots_of p.now.format p.now.log_length) }
{
    p.slots == (p.log_length / shape_of(p.format).bytes).saturating_sub(1)
}

/// Whether superblock, log and one unit fit the device.
fn has_need(p: &Params) -> bool
    requires { IsTrue (mkfs.is_geometry p.now.unit p.now.log_length) }
    ensures { IsTrue result ↔ (need p.now.log_length p.now.unit ≤ p.now.device) }
{
    LOG_OFFSET + p.log_length + p.unit <= p.device
}

/// Whether format and slots are those of a file system.
fn has_form(p: &Params) -> bool
    ensures { IsTrue result ↔ (IsTrue (is_format p.now.format) × (p.now.slots ≡ slots_of p.now.format p.now.log_length)) }
{
    is_format(p.format) && has_slots(p)
}

/// Whether unit and log are those of a file system, and they fit the device.
fn has_sizes(p: &Params) -> bool
    ensures { IsTrue result ↔ (IsTrue (mkfs.is_geometry p.now.unit p.now.log_length) × (need p.now.log_length p.now.unit ≤ p.now.device)) }
{
    is_geometry(p.unit, p.log_length) && has_need(p)
}

/// Whether the host of this UUID appends, on a device of so many lines.
fn is_of(me: &Uuid, lines: u64, p: &Params) -> bool
    ensures { IsTrue result ↔ ((p.now.device ≡ line_bytes * lines) × (p.now.master ≡ me.now)) }
{
    has_bytes(lines, p.device) && p.master == *me
}

/// Whether a host of this UUID may have made a file system of these parameters on a media of so many lines.
pub(crate) fn is_made_by(me: &Uuid, lines: u64, p: &Params) -> bool
    ensures { IsTrue result ↔ IsMadeBy me.now lines p.now }
{
    is_uuid(p.fs);
    has_form(p) && has_sizes(p) && is_of(me, lines, p)
}
