//! The marks of an axis of time.

use crate::shapes::{Caption, Unit};
use log_lines::{DAY, HOUR, MINUTE, SECOND};

/// A time of an axis whose marks are so far apart: in the greatest unit of which each of them is a multiple.
pub(crate) fn tick<'a>(time: u64, step: u64) -> Caption<'a> {
    if step % DAY == 0 {
        Caption::Time(time / DAY, Unit::Day)
    } else if step % HOUR == 0 {
        Caption::Time(time / HOUR, Unit::Hour)
    } else if step % MINUTE == 0 {
        Caption::Time(time / MINUTE, Unit::Minute)
    } else if step % SECOND == 0 {
        Caption::Time(time / SECOND, Unit::Second)
    } else {
        Caption::Time(time, Unit::Millisecond)
    }
}
