//! Texts as bytes.
ghost use Rattle.std.specs.Prelude.{◌≡◌, ◌++◌, ◌<◌, ◌^◌, length, take, IfOk, IfNone, IfSome, OnOk};
ghost use Rattle.std.specs.Option.{option_copied};
ghost use Rattle.sx_bytes.specs.Front.{Gives};
ghost use Rattle.sx_tree.specs.Text.{IsText};
ghost use Rattle.sx_record.specs.Spelling.{text_bytes};
ghost use Rattle.sx_record.specs.Reading.{front_text};

use std::alloc::{AllocError, Global};
use sx_bytes::{Fields, FieldsOut};
use sx_tree::text::{Text, TextFault};

/// Appends the length and the text. Where memory runs out a part of them may stand at the end.
#[tactic(auto, using(crate::proofs::Extends::front_append))]
pub(crate) fn put_text(out: &mut FieldsOut, text: &[u8]) -> Result<(), AllocError>
    requires { length text.now < 2 ^ 32 }
    ensures ok { OnOk result (out.new ≡ out.old ++ text_bytes text.now) }
    ensures front { take (length out.old) out.new ≡ out.old }
{
    out.u32(text.len() as u32)?;
    out.bytes(text)?;
    Ok(())
}

/// A length, and so many bytes.
#[tactic(auto, unfolding(crate::specs::Reading::front_text))]
pub(crate) fn read_text<'a>(fields: &mut Fields<'a>) -> Option<&'a [u8]>
    ensures written { IfSome result (λ text. fields.old ≡ text_bytes text.now ++ fields.new) }
    ensures read { Gives (option_copied result) fields.new (front_text fields.old) }
{
    let count = fields.u32()?;
    fields.bytes(count)
}

/// The text of the bytes. None exactly where they are no text.
pub(crate) fn text_of(alloc: Global, bytes: &[u8]) -> Result<Option<Text>, AllocError>
    ensures found { IfOk result (λ found. IfSome found (λ text. (text ≡ bytes.now) × IsText text)) }
    ensures none { IfOk result (λ found. IfNone found (IsText bytes.now → ⊥)) }
{
    match Text::new(alloc, bytes) {
        Ok(text) => Ok(Some(text)),
        Err(TextFault::OutOfMemory) => Err(AllocError),
        Err(TextFault::NotUtf8 { .. } | TextFault::TooLong { .. }) => Ok(None),
    }
}
