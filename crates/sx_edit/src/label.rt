//! Kinds with their labels.
ghost use Rattle.std.specs.Prelude.{◌≡◌, ℕ, [], ◌∷◌, if◌then◌else◌, IfOk};
ghost use Rattle.sx_model.specs.Numbered.{scalar_node};
ghost use Rattle.sx_tree.specs.Number.{IsLiteral};
ghost use Rattle.sx_tree.specs.Record.{IsLabel};

use std::alloc::{AllocError, Global};
use sx_tree::json::Scalar;
use sx_tree::literal::Literal;
use sx_tree::record::Kind;
use sx_tree::text::{Text, TextFault};

/// A kind and a label of it.
#[derive(Drop)]
pub(crate) struct Label {
    pub(crate) kind: Kind,
    pub(crate) text: Text,
    ghost fits: { ∥ IsLabel kind text ∥₁ },
}

/// The text of one byte.
fn bit_text(alloc: Global, bit: bool) -> Result<Text, AllocError>
    ensures { IfOk result (λ text. text ≡ (if bit then 1 ∷ [] else 0 ∷ [])) }
{
    let bytes: [u8; 1] = if bit { [1] } else { [0] };
    match Text::new(alloc, &bytes) {
        Ok(text) => Ok(text),
        Err(TextFault::OutOfMemory) => Err(AllocError),
        Err(TextFault::NotUtf8 { .. }) => unreachable!(),
        Err(TextFault::TooLong { .. }) => unreachable!(),
    }
}

/// The empty text.
pub(crate) fn empty_text(alloc: Global) -> Result<Text, AllocError>
    ensures { IfOk result (λ text. text ≡ []) }
{
    match Text::new(alloc, b"") {
        Ok(text) => Ok(text),
        Err(TextFault::OutOfMemory) => Err(AllocError),
        Err(TextFault::NotUtf8 { .. }) => unreachable!(),
        Err(TextFault::TooLong { .. }) => unreachable!(),
    }
}

/// The literal as a text.
fn literal_text(alloc: Global, literal: &Literal) -> Result<Text, AllocError>
    ensures same { IfOk result (λ text. text ≡ literal.now) }
    ensures literal { IfOk result (λ text. ∥ IsLiteral text ∥₁) }
{
    match Text::new(alloc, literal.as_bytes()) {
        Ok(text) => Ok(text),
        Err(TextFault::OutOfMemory) => Err(AllocError),
        Err(TextFault::NotUtf8 { .. }) => unreachable!(),
        Err(TextFault::TooLong { .. }) => unreachable!(),
    }
}

/// The kind and the label of a scalar.
pub(crate) fn scalar_label(alloc: Global, value: &Scalar) -> Result<Label, AllocError>
    ensures { IfOk result (λ label. (k : ℕ)
        → scalar_node k value.now ≡ record { number = k; kind = label.kind; label = label.text }) }
{
    match value {
        Scalar::Str(content) => {
            let text = content.copy(alloc)?;
            Ok(Label {
                kind: Kind::Str,
                text,
            })
        }
        Scalar::Number(literal) => {
            let text = literal_text(alloc, literal)?;
            Ok(Label {
                kind: Kind::Number,
                text,
            })
        }
        Scalar::Bool(bit) => {
            let text = bit_text(alloc, *bit)?;
            Ok(Label {
                kind: Kind::Bool,
                text,
            })
        }
        Scalar::Null => {
            let text = empty_text(alloc)?;
            Ok(Label {
                kind: Kind::Null,
                text,
            })
        }
    }
}
