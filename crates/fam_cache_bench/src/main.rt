//! How long a cache takes for rounds over many lines: `time` of the built program is the figure. It is a crate, so that
//! the cache is built and run just as it is proved.
//!
//! Each round goes over 100,000 lines in order, makes each line absent and loads its words anew, as a task reads a log.
//! So a round is 100,000 invalidations, as many reads of memory, and a million loads.
#![tactic(auto)]

use fam_base::LineNo;
use fam_cache::HostCache;
use fam_media::{Media, MemMedia};
use std::io;

const LINES: u64 = 100_000;

const ROUNDS: u64 = 3;

/// Loads of one line in a row.
const LOADS: u64 = 10;

/// Makes a line absent and loads its words anew, and counts the loads that succeed.
fn reload<M: Media>(cache: &mut HostCache, media: &mut M, line: u64) -> u64 {
    if line >= media.lines() || cache.invalidate(media, LineNo(line)).is_err() {
        return 0;
    }
    let mut count: u64 = 0;
    for load in 0..LOADS {
        if cache.load(media, LineNo(line), (load % 8) as u8).is_ok() {
            count = count.saturating_add(1);
        }
    }
    count
}

/// Goes over all lines in order, and counts the loads that succeed.
fn round<M: Media>(cache: &mut HostCache, media: &mut M) -> u64 {
    let mut count: u64 = 0;
    for line in 0..LINES {
        count = count.saturating_add(reload(cache, media, line));
    }
    count
}

fn main(rt: HostRuntime) -> io::Result<()> {
    let Ok(mut media) = MemMedia::new(rt.alloc(), LINES) else {
        return println!(rt; "out of memory");
    };
    let mut cache = HostCache::new(rt.alloc());
    for number in 0..ROUNDS {
        let count = round(&mut cache, &mut media);
        println!(rt; "round {number}: {count} loads")?;
    }
    Ok(())
}
