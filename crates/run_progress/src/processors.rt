//! How many processors there are for a run.

use std::fs;
use std::rt::Files;

/// How many numbers a range has, as `0-3` or `5`.
fn count_in_range(range: &str) -> Option<u64> {
    match range.split_once('-') {
        Some((first, last)) => {
            let (first, last) = (first.parse::<u32>().ok()?, last.parse::<u32>().ok()?);
            Some(
                u64::from(last)
                    .saturating_sub(u64::from(first))
                    .saturating_add(1),
            )
        }
        None => {
            let _number = range.parse::<u32>().ok()?;
            Some(1)
        }
    }
}

/// How many numbers a list of ranges has, as `0-3,8`.
fn count_in_list(list: &str) -> Option<u64> {
    let mut count = 0u64;
    for range in list.trim().split(',') {
        count = count.saturating_add(count_in_range(range)?);
    }
    Some(count)
}

/// How many processors are at work.
fn online<R: Files + AllocGlobal>(rt: &R) -> Option<u64> {
    let list = fs::read_to_string(rt, "/sys/devices/system/cpu/online").ok()?;
    count_in_list(list.as_str())
}

/// How many this process may run on.
fn allowed<R: Files + AllocGlobal>(rt: &R) -> Option<u64> {
    let text = fs::read_to_string(rt, "/proc/self/status").ok()?;
    let list = text
        .as_str()
        .lines()
        .find_map(|line| line.strip_prefix("Cpus_allowed_list:"))?;
    count_in_list(list)
}

/// How many processors there are for the children of this process; none where the system doesn't say it.
pub fn processor_count<R: Files + AllocGlobal>(rt: &R) -> Option<u64> {
    match (online(rt), allowed(rt)) {
        (Some(online), Some(allowed)) => Some(online.min(allowed)),
        (online, allowed) => online.or(allowed),
    }
}
