//! What is asked of objects.
ghost use Rattle.std.specs.Prelude.{FitsSigned};
ghost use Rattle.std.specs.Int.{w64};

use sx_tree::text::Text;

/// What is asked: the names of both fields, and the time in milliseconds since the start of 1970 in UTC.
#[derive(Clone, Copy)]
pub(crate) struct Asked<'a> {
    pub(crate) from: &'a Text,
    pub(crate) to: &'a Text,
    pub(crate) time: i64,
    ghost time_fits: { FitsSigned w64 time },
}
