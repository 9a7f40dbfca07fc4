/// An object of the outside failed in this call. Its count of faults tells that it did.
#[derive(Clone, Copy, Debug, PartialEq, Eq)]
pub struct Failed;
