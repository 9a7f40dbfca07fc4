//! Instants, as strings tell them.
ghost use Rattle.std.specs.Prelude.{◌≡◌, Some};
ghost use Rattle.sx_model.specs.Valid as model;
ghost use Rattle.sx_valid.specs.Fields.{value_seen};

use jiff::Timestamp;
use sx_tree::record::{Kind, NodeRecord};

// Nanoseconds of a millisecond.
const NANOSECONDS: i128 = 1_000_000;

/// Whether the value is a string that `jiff` reads as an instant not after this time, in milliseconds since the start of 1970 in
/// UTC.
pub(crate) fn has_begun(time: i64, value: &NodeRecord) -> bool
    ensures { result ≡ model.has_begun time (Some (value_seen value.now)) }
{
    if !matches!(value.kind, Kind::Str) {
        return false;
    }
    match value.label.as_str().parse::<Timestamp>() {
        Ok(instant) => instant.as_nanosecond() <= i128::from(time) * NANOSECONDS,
        Err(_) => false,
    }
}

/// Whether the value is null, or a string that `jiff` reads as an instant after this time.
pub(crate) fn has_not_ended(time: i64, value: &NodeRecord) -> bool
    ensures { result ≡ model.has_not_ended time (Some (value_seen value.now)) }
{
    if matches!(value.kind, Kind::Null) {
        return true;
    }
    if !matches!(value.kind, Kind::Str) {
        return false;
    }
    match value.label.as_str().parse::<Timestamp>() {
        Ok(instant) => i128::from(time) * NANOSECONDS < instant.as_nanosecond(),
        Err(_) => false,
    }
}
