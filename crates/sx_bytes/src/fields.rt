ghost use Rattle.std.specs.Prelude.{◌≡◌, ◌<◌, ◌≤◌, ◌↔◌, ◌++◌, ◌∷◌, IsSome, IfSome, IfNone, MatchOption, drop, length, take};
ghost use Rattle.std.specs.Option.{option_copied};
ghost use Rattle.std.specs.Int.{w32, w64, w128, to_be_bytes};
ghost use Rattle.sx_bytes.specs.Front.{AreBytes, Gives, front_byte, front_number, front_piece};

use std::marker::Model;

/// Reads fields from the front of bytes, one after another. In contracts it is the list of the bytes left.
///
/// A field for which too few bytes are left is None, and then none is taken.
#[derive(Drop)]
pub struct Fields<'a> {
    left: &'a [u8],
}

impl<'a> Model for Fields<'a> {
    ghost use Rattle.std.specs.Prelude.{List, ℕ};

    ghost Value = { List ℕ };

    ghost view = { λ fields. fields.left.now };
}

/// The first N bytes, and those behind them.
fn split_chunk<const N: usize>(bytes: &[u8]) -> Option<(&[u8; N], &[u8])>
    ensures parts { MatchOption result (length bytes.now < N) (λ p. (N ≤ length bytes.now) × (p.0.now ≡ take N bytes.now) × (p.1.now ≡ drop N bytes.now)) }
    ensures bytes { AreBytes bytes.now }
{
    bytes.split_first_chunk::<N>()
}

impl<'a> Fields<'a> {
    /// Nothing is read yet.
    pub fn new(bytes: &'a [u8]) -> Fields<'a>
        ensures { result ≡ bytes.now }
    {
        Fields { left: bytes }
    }

    /// How many bytes are left.
    pub fn left(&self) -> usize
        ensures { result ≡ length self.now }
    {
        self.left.len()
    }

    /// The bytes that are left. Nothing is taken.
    pub fn rest(&self) -> &'a [u8]
        ensures { result.now ≡ self.now }
    {
        self.left
    }

    /// The next byte.
    pub fn u8(&mut self) -> Option<u8>
        ensures enough { IsSome result ↔ (1 ≤ length self.old) }
        ensures written { IfSome result (λ x. self.old ≡ x ∷ self.new) }
        ensures read { Gives result self.new (front_byte self.old) }
        ensures none { IfNone result (self.new ≡ self.old) }
    {
        let (first, rest) = self.left.split_first()?;
        self.left = rest;
        Some(*first)
    }

    /// The number of the next 4 bytes, the highest first.
    #[tactic(auto, unfolding(crate::specs::Front::front_number))]
    pub fn u32(&mut self) -> Option<u32>
        ensures enough { IsSome result ↔ (4 ≤ length self.old) }
        ensures written { IfSome result (λ x. self.old ≡ to_be_bytes w32 x ++ self.new) }
        ensures read { Gives result self.new (front_number w32 self.old) }
        ensures none { IfNone result (self.new ≡ self.old) }
    {
        let (bytes, rest) = split_chunk::<4>(self.left)?;
        self.left = rest;
        Some(u32::from_be_bytes(*bytes))
    }

    /// The number of the next 8 bytes, the highest first.
    #[tactic(auto, unfolding(crate::specs::Front::front_number))]
    pub fn u64(&mut self) -> Option<u64>
        ensures enough { IsSome result ↔ (8 ≤ length self.old) }
        ensures written { IfSome result (λ x. self.old ≡ to_be_bytes w64 x ++ self.new) }
        ensures read { Gives result self.new (front_number w64 self.old) }
        ensures none { IfNone result (self.new ≡ self.old) }
    {
        let (bytes, rest) = split_chunk::<8>(self.left)?;
        self.left = rest;
        Some(u64::from_be_bytes(*bytes))
    }

    /// The number of the next 16 bytes, the highest first.
    #[tactic(auto, unfolding(crate::specs::Front::front_number))]
    pub fn u128(&mut self) -> Option<u128>
        ensures enough { IsSome result ↔ (16 ≤ length self.old) }
        ensures written { IfSome result (λ x. self.old ≡ to_be_bytes w128 x ++ self.new) }
        ensures read { Gives result self.new (front_number w128 self.old) }
        ensures none { IfNone result (self.new ≡ self.old) }
    {
        let (bytes, rest) = split_chunk::<16>(self.left)?;
        self.left = rest;
        Some(u128::from_be_bytes(*bytes))
    }

    /// The next n bytes.
    #[tactic(auto, unfolding(crate::specs::Front::front_piece))]
    pub fn bytes(&mut self, n: u32) -> Option<&'a [u8]>
        ensures enough { IsSome result ↔ (n ≤ length self.old) }
        ensures written { IfSome result (λ piece. (self.old ≡ piece.now ++ self.new) × (length piece.now ≡ n)) }
        ensures read { Gives (option_copied result) self.new (front_piece n self.old) }
        ensures none { IfNone result (self.new ≡ self.old) }
    {
        let (bytes, rest) = self.left.split_at_checked(n as usize)?;
        self.left = rest;
        Some(bytes)
    }
}
