ghost use Rattle.std.specs.Prelude.{◌≡◌};
ghost use Rattle.sx_bytes.specs.Damage.{number_damage, wide};

/// What is broken in a volume, and where.
#[derive(Clone, Copy, Debug, PartialEq, Eq)]
pub struct Damage {
    /// Where the broken thing begins, in bytes from the start of the volume.
    pub place: u64,
    /// The number of the rule that is broken.
    pub rule: u8,
    /// What the rule asks for: a digest, or a number of 32 bytes, the highest first.
    pub kept: [u8; 32],
    /// What stands there instead, in the same form.
    pub found: [u8; 32],
}

/// What is told of a place where a rule on a number is broken, by the value or bound that the rule asks for and the value
/// that stands there.
pub fn number_damage(place: u64, rule: u8, kept: u64, found: u64) -> Damage
    ensures { result ≡ number_damage place rule kept found }
{
    Damage {
        place,
        rule,
        kept: wide(kept),
        found: wide(found),
    }
}

// A number as 32 bytes, the highest first.
fn wide(n: u64) -> [u8; 32]
    ensures { result ≡ wide n }
{
    let mut bytes = [0; 32];
    bytes[24..].copy_from_slice(&n.to_be_bytes());
    bytes
}
