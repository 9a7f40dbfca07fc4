//! The fault of a text that is cut where its bytes are no longer in UTF-8.
ghost use Rattle.std.specs.Prelude.{◌≡◌};
ghost use Rattle.sx_model.specs.StringFaults.{cut};

pub use sx_tree::json_fault::JsonFault;

/// The fault of a text whose bytes are in UTF-8 up to this place and not there, where they have this fault
/// up to there.
pub(crate) fn at_cut(fault: JsonFault, valid: usize) -> JsonFault
    ensures { result ≡ cut valid fault }
{
    match fault {
        JsonFault::Ended => JsonFault::BadByte { at: valid as u64 },
        other => other,
    }
}
