//! The marks of an axis of time.

ghost use Rattle.std.specs.Prelude.{◌≡◌, ◌++◌, OnOk, string_bytes};
ghost use Rattle.run_times.specs.Picture.{axis_marks, tick_text};

use log_lines::{DAY, HOUR, MINUTE, SECOND};
use std::alloc::AllocError;

/// How many marks an axis of so many milliseconds has that are so far apart.
pub(crate) fn marks_of(total: u64, step: u64) -> u64
    ensures { result ≡ axis_marks total step }
{
    (total / step.max(1)).saturating_add(1)
}

/// Adds a time of an axis whose marks are so far apart: in the greatest unit that is no greater than a step.
pub(crate) fn push_tick(text: &mut String, time: u64, step: u64) -> Result<(), AllocError>
    ensures { OnOk result (string_bytes text.new ≡ string_bytes text.old ++ tick_text time step) }
{
    if step % DAY == 0 {
        write!(text, "{} d", time / DAY)
    } else if step % HOUR == 0 {
        write!(text, "{} h", time / HOUR)
    } else if step % MINUTE == 0 {
        write!(text, "{} min", time / MINUTE)
    } else if step % SECOND == 0 {
        write!(text, "{} s", time / SECOND)
    } else {
        write!(text, "{} ms", time)
    }
}
