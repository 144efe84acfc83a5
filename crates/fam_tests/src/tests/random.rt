//! Random logs, with damage of all kinds: what fsck reports, and the plain report. Random words: their checksum, and the
//! plain one.

ghost use Rattle.std.specs.Prelude.{◌≡◌, ◌<◌, ◌≤◌};
ghost use Rattle.fam_format.specs.Layout.{geometry};
ghost use Rattle.fam_format.specs.Params.{SoundParams};

use fam_base::{BadPath, Entry, Extent, Extents, Kind, MapKind, OutOfMemory, Params, Path};
use fam_crc::{crc_more, crc_words};
use fam_entry::spell;
use fam_format::{FIRST_FORMAT, SLOT_WORDS};
use fam_fsck::Fsck;
use fam_plain::{plain_crc, plain_crc_words, plain_report};
use fam_rules::Report;
use rand_core::SeedableRng;
use rand_core::utils::NextWord;
use rand_xoshiro::Xoshiro256PlusPlus;
use std::alloc::Global;
use std::test::Fail;
use uuid::Uuid;

/// How many slots a log has.
const SLOTS: usize = 15;

/// A device of 538 units of 4,096 bytes, with a log of 15 slots: the first 514 units are superblock and log.
#[tactic(auto, unfolding(fam_format::specs::Layout::shape_of))]
pub(super) fn small() -> Params
    ensures sound { SoundParams result }
    ensures slots { result.slots ≡ 15 }
    ensures words { (geometry result).words ≡ SLOT_WORDS }
{
    Params {
        format: FIRST_FORMAT,
        log_length: 8_192,
        slots: 15,
        unit: 4_096,
        device: 2_203_648,
        fs: Uuid::from_bytes([1; 16]),
        master: Uuid::from_bytes([2; 16]),
    }
}

/// The next random number below a bound.
fn draw(generator: &mut Xoshiro256PlusPlus, bound: u64) -> u64
    requires { 0 < bound }
    ensures { result < bound }
{
    generator.next_word() % bound
}

/// A letter from `a` to `c`.
fn letter(generator: &mut Xoshiro256PlusPlus) -> u8 {
    b'a' + draw(generator, 3) as u8
}

/// A path of one to three letters.
fn path(generator: &mut Xoshiro256PlusPlus) -> Result<Path, BadPath> {
    let bytes = [
        letter(generator),
        b'/',
        letter(generator),
        b'/',
        letter(generator),
    ];
    let depth = draw(generator, 3) as usize;
    Path::read(&bytes[..2 * depth + 1])
}

/// So many extents of this length, which may overlap, or end behind the device.
fn extents(generator: &mut Xoshiro256PlusPlus, count: u64, length: u64) -> Extents {
    let mut extents = Extents::new();
    for _extent in 0..count {
        let first = 512 + draw(generator, 26);
        let _room = extents.push(Extent {
            offset: 4_096 * first,
            length,
        });
    }
    extents
}

/// The bytes of so many extents of one or two units.
fn room_of(count: u64, length: u64) -> u64
    requires some { 0 < count }
    requires few { count < 8 }
    ensures { 4096 ≤ result }
{
    if length == 4_096 {
        4_096 * count
    } else {
        8_192 * count
    }
}

/// A file of one to six extents of one or two units each, simple or striped.
fn file(generator: &mut Xoshiro256PlusPlus) -> Result<Entry, BadPath> {
    let count = 1 + draw(generator, 6);
    let length = 4_096 * (1 + draw(generator, 2));
    let size = room_of(count, length) - draw(generator, 4_096);
    let map = if draw(generator, 2) == 0 {
        MapKind::Simple
    } else {
        MapKind::Striped { chunk: 4_096 }
    };
    Ok(Entry {
        kind: Kind::File,
        path: path(generator)?,
        size,
        mode: 0o644,
        uid: 0,
        gid: 0,
        map,
        extents: extents(generator, count, length),
    })
}

/// A directory, of which one in six has a mode of five digits.
fn directory(generator: &mut Xoshiro256PlusPlus) -> Result<Entry, BadPath> {
    let mode = if draw(generator, 6) == 0 {
        0o10755
    } else {
        0o755
    };
    Ok(Entry {
        kind: Kind::Directory,
        path: path(generator)?,
        size: 0,
        mode,
        uid: 0,
        gid: 0,
        map: MapKind::Empty,
        extents: Extents::new(),
    })
}

/// The checksum of the words before the last.
fn checksum(words: &[u64; SLOT_WORDS]) -> u64 {
    u64::from(crc_words(&words[..63]))
}

/// The words of an entry, with another number or another word, and with a checksum that fits or doesn't.
fn damaged(generator: &mut Xoshiro256PlusPlus, words: &[u64; SLOT_WORDS]) -> [u64; SLOT_WORDS] {
    let mut words = *words;
    let place = draw(generator, 63) as usize;
    words[place] = if draw(generator, 2) == 0 {
        draw(generator, 4)
    } else {
        generator.next_word()
    };
    if draw(generator, 4) > 0 {
        words[63] = checksum(&words);
    }
    words
}

/// The words of an entry in a slot of the first format.
fn spelled(entry: &Entry, number: u64) -> [u64; SLOT_WORDS] {
    match spell(entry, number, FIRST_FORMAT)
        .words()
        .as_array::<SLOT_WORDS>()
    {
        Some(words) => *words,
        None => [0; SLOT_WORDS],
    }
}

/// The words of a slot: mostly an entry of its number.
fn slot(generator: &mut Xoshiro256PlusPlus, number: u64) -> Result<[u64; SLOT_WORDS], BadPath> {
    let entry = if draw(generator, 2) == 0 {
        directory(generator)?
    } else {
        file(generator)?
    };
    match draw(generator, 12) {
        0 => Ok([0; SLOT_WORDS]),
        1 => Ok(spelled(&entry, draw(generator, 15))),
        2 => Ok(damaged(generator, &spelled(&entry, number))),
        _ => Ok(spelled(&entry, number)),
    }
}

/// The slots of a log.
fn slots(generator: &mut Xoshiro256PlusPlus) -> Result<[[u64; SLOT_WORDS]; SLOTS], BadPath> {
    let mut slots = [[0; SLOT_WORDS]; SLOTS];
    for i in 0..SLOTS {
        slots[i] = slot(generator, i as u64)?;
    }
    Ok(slots)
}

/// The report of a log with these slots, which are 15.
fn reported(
    alloc: Global,
    params: &Params,
    slots: &[[u64; SLOT_WORDS]; SLOTS],
    gate: u64,
) -> Result<Report, OutOfMemory>
    requires sound { SoundParams params.now }
    requires slots { params.now.slots ≡ 15 }
    requires words { (geometry params.now).words ≡ SLOT_WORDS }
{
    let mut fsck = Fsck::new(alloc, params, gate)?;
    for i in 0..params.slots {
        fsck.add(&slots[i as usize])?;
    }
    Ok(fsck.report())
}

#[test]
fn a_thousand_random_logs_are_reported_as_plainly(rt: HostRuntime) -> Result<(), Fail> {
    let params = small();
    let mut generator = Xoshiro256PlusPlus::seed_from_u64(1);
    for image in 0..1_000 {
        let slots = slots(&mut generator)?;
        let gate = draw(&mut generator, 16);
        let report = reported(rt.alloc(), &params, &slots, gate)?;
        let plain = plain_report(rt.alloc(), &params, &slots, gate)?;
        assert!(rt; report == plain, "image {image}");
    }
    Ok(())
}

/// Whether the checksums of up to 24 random words and bytes are the plain ones.
fn checksums_agree(generator: &mut Xoshiro256PlusPlus) -> bool {
    let mut words = [0; 24];
    let mut bytes = [0; 24];
    for i in 0..24 {
        words[i] = generator.next_word();
        bytes[i] = draw(generator, 256) as u8;
    }
    let count = draw(generator, 25) as usize;
    crc_words(&words[..count]) == plain_crc_words(&words[..count])
        && crc_more(0, &bytes[..count]) == plain_crc(&bytes[..count])
}

#[test]
fn a_thousand_checksums_are_the_plain_ones(rt: HostRuntime) -> Result<(), Fail> {
    let mut generator = Xoshiro256PlusPlus::seed_from_u64(2);
    for _turn in 0..1_000 {
        assert!(rt; checksums_agree(&mut generator));
    }
    Ok(())
}
