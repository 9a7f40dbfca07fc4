//! Where a number of RFC 8259 section 6 ends in a text.
ghost use Rattle.std.specs.Prelude.{◌↔◌, [], IsTrue, MatchOption, take};
ghost use Rattle.sx_tree.specs.Number.{IsNumber, IsLongestFront};
ghost use Rattle.sx_tree.specs.NumberState.{Follows, LeadsTo, LeadsNowhere};

/// Where the reading of a number stands.
#[derive(Clone, Copy)]
enum NumberState {
    /// Before its first byte.
    Start,
    /// Behind its minus.
    Minus,
    /// Behind an int that is `0`.
    Zero,
    /// Behind a digit of another int.
    Whole,
    /// Behind the decimal point.
    Point,
    /// Behind a digit of the fraction.
    Fraction,
    /// Behind `e` or `E`.
    Mark,
    /// Behind the sign of the exponent.
    Sign,
    /// Behind a digit of the exponent.
    Exponent,
}

/// Where the reading stands behind one more byte. None where no number goes on with it.
fn next(state: NumberState, byte: u8) -> Option<NumberState>
    ensures { MatchOption result (LeadsNowhere state byte) (LeadsTo state byte) }
{
    use NumberState::*;
    match (state, byte) {
        (Start, b'-') => Some(Minus),
        (Start | Minus, b'0') => Some(Zero),
        (Start | Minus, b'1'..=b'9') => Some(Whole),
        (Whole, b'0'..=b'9') => Some(Whole),
        (Zero | Whole, b'.') => Some(Point),
        (Point | Fraction, b'0'..=b'9') => Some(Fraction),
        (Zero | Whole | Fraction, b'e' | b'E') => Some(Mark),
        (Mark, b'+' | b'-') => Some(Sign),
        (Mark | Sign | Exponent, b'0'..=b'9') => Some(Exponent),
        _ => None,
    }
}

/// Whether what was read so far is a number.
fn is_end(state: NumberState) -> bool
    ensures { IsTrue result ↔ Follows state [] }
{
    use NumberState::*;
    matches!(state, Zero | Whole | Fraction | Exponent)
}

/// The front of a text with which a number begins.
#[derive(Clone, Copy, Debug, PartialEq, Eq)]
pub struct NumberFront {
    /// How many bytes it has.
    pub len: usize,
    /// Whether it is a number as it stands.
    pub is_number: bool,
}

/// The longest front of the bytes with which some number of RFC 8259 section 6 begins. It ends before
/// the first byte with which no number goes on, or where the bytes end.
pub fn number_front(bytes: &[u8]) -> NumberFront
    ensures longest { IsLongestFront bytes.now result.len }
    ensures number { IsTrue result.is_number ↔ IsNumber (take result.len bytes.now) }
{
    let mut state = NumberState::Start;
    for (len, byte) in bytes.iter().enumerate() {
        match next(state, *byte) {
            Some(after) => state = after,
            None => return NumberFront {
                len,
                is_number: is_end(state),
            },
        }
    }
    NumberFront {
        len: bytes.len(),
        is_number: is_end(state),
    }
}
