use sx_tree::text::Text;

/// What a volume was made with.
#[derive(Drop)]
pub struct Birth {
    /// How many fragments a leaf has at most, from 1 to 8.
    pub window: u8,
    /// The name of the field that tells from when on an object is valid, of 1 to 64 bytes.
    pub from: Text,
    /// The name of the field that tells up to when it is, of 1 to 64 bytes too, and another one.
    pub to: Text,
}
