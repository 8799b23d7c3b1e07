//! How many files and sockets the program may have open.

use libc::types::rlimit;
use libc::{RLIMIT_NOFILE, getrlimit};

/// How many descriptors are wanted to serve so many connections at once: a socket and a file for each, and those of the program itself.
fn wanted(at_once: u32) -> u64 {
    u64::from(at_once) * 2 + 16
}

/// How many descriptors the program may have, where the system says it.
fn allowed() -> Option<u64> {
    let mut limit = rlimit {
        rlim_cur: 0,
        rlim_max: 0,
    };
    if getrlimit(RLIMIT_NOFILE, &mut limit) != 0 {
        return None;
    }
    Some(limit.rlim_cur)
}

/// How many descriptors there are, where they are too few to serve so many connections at once. One after another takes what there is.
pub fn too_few(at_once: u32) -> Option<u64> {
    if at_once <= 1 {
        return None;
    }
    let there = allowed()?;
    if there < wanted(at_once) {
        return Some(there);
    }
    None
}

/// How many files may stay open between requests: as many as are left beside those that are wanted, but no more than 32.
pub fn files_to_keep(at_once: u32) -> usize {
    let left = allowed().unwrap_or(0).saturating_sub(wanted(at_once));
    left.min(32) as usize
}
