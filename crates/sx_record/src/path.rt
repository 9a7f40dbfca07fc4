//! Paths as bytes.
ghost use Rattle.std.specs.Prelude.{◌≡◌, ◌≢◌, ◌↔◌, ◌++◌, ◌<◌, ◌^◌, length, take, IfOk, IfNone, IfSome, IsTrue, OnOk};
ghost use Rattle.std.specs.Option.{option_map};
ghost use Rattle.sx_bytes.specs.Front.{Gives};
ghost use Rattle.sx_tree.specs.declared.record.PathRecord.{PathRecord};
ghost use Rattle.sx_tree.specs.declared.record.Step.{Step};
ghost use Rattle.sx_tree.specs.Text.{IsText};
ghost use Rattle.sx_record.specs.Spelling.{IsPath, path_bytes, path_fields, step_byte, step_name};
ghost use Rattle.sx_record.specs.Reading.{front_path};
ghost use Rattle.sx_record.specs.Given.{given_path};

use crate::record::Record;
use crate::text::{put_text, read_text, text_of};
use std::alloc::{AllocError, Global};
use sx_bytes::{Fields, FieldsOut};
use sx_tree::record::{PathRecord, Step};

/// The fields of a path.
#[derive(Drop)]
struct GivenPath<'a> {
    parent: u32,
    step: u8,
    count: u32,
    name: &'a [u8],
}

/// The byte of a step, and its name.
fn step_fields(step: &Step) -> (u8, &[u8])
    ensures byte { result.0 ≡ step_byte step.now }
    ensures name { result.1.now ≡ step_name step.now }
    ensures text { IsText (step_name step.now) }
{
    match step {
        Step::Top => (0, &[]),
        Step::Item => (1, &[]),
        Step::Name(name) => (2, name.as_bytes()),
    }
}

/// The step that has the byte and the name. None exactly where there is none.
fn step_of(alloc: Global, byte: u8, name: &[u8]) -> Result<Option<Step>, AllocError>
    ensures found { IfOk result (λ found. IfSome found (λ step. (step_byte step ≡ byte) × (step_name step ≡ name.now) × IsText (step_name step))) }
    ensures none { IfOk result (λ found. IfNone found ((step : Step) → IsText (step_name step) → step_byte step ≡ byte → step_name step ≢ name.now)) }
{
    match (byte, name) {
        (0, []) => Ok(Some(Step::Top)),
        (1, []) => Ok(Some(Step::Item)),
        (2, name) => match text_of(alloc, name)? {
            Some(name) => Ok(Some(Step::Name(name))),
            None => Ok(None),
        },
        _ => Ok(None),
    }
}

/// Appends the fields. Where memory runs out a part of them may stand at the end.
#[tactic(auto, using(crate::proofs::Extends::front_append))]
fn put_path(out: &mut FieldsOut, given: &GivenPath) -> Result<(), AllocError>
    requires { length given.now.name.now < 2 ^ 32 }
    ensures ok { OnOk result (out.new ≡ out.old ++ path_bytes (given_path given.now)) }
    ensures front { take (length out.old) out.new ≡ out.old }
{
    out.u32(given.parent)?;
    out.u8(given.step)?;
    out.u32(given.count)?;
    put_text(out, given.name)?;
    Ok(())
}

/// The fields at the front. None exactly where too few bytes are left for them.
#[tactic(auto, unfolding(crate::specs::Reading::front_path))]
fn read_path<'a>(fields: &mut Fields<'a>) -> Option<GivenPath<'a>>
    ensures written { IfSome result (λ given. fields.old ≡ path_bytes (given_path given) ++ fields.new) }
    ensures read { Gives (option_map given_path result) fields.new (front_path fields.old) }
{
    let parent = fields.u32()?;
    let step = fields.u8()?;
    let count = fields.u32()?;
    let name = read_text(fields)?;
    Some(GivenPath {
        parent,
        step,
        count,
        name,
    })
}

/// The path that has the fields. None exactly where there is none.
fn path_of(alloc: Global, given: &GivenPath) -> Result<Option<PathRecord>, AllocError>
    ensures found { IfOk result (λ found. IfSome found (λ r. IsPath r × (path_fields r ≡ given_path given.now))) }
    ensures none { IfOk result (λ found. IfNone found ((r : PathRecord) → IsPath r → path_fields r ≢ given_path given.now)) }
{
    if given.parent >= 1_073_741_824 {
        return Ok(None);
    }
    match step_of(alloc, given.step, given.name)? {
        Some(step) => Ok(Some(PathRecord {
            parent: given.parent,
            step,
            count: given.count,
        })),
        None => Ok(None),
    }
}

/// The fields of the path.
fn given(path: &PathRecord) -> GivenPath<'_>
    ensures fields { given_path result ≡ path_fields path.now }
    ensures known { IsPath path.now }
{
    let (step, name) = step_fields(&path.step);
    GivenPath {
        parent: path.parent,
        step,
        count: path.count,
        name,
    }
}

/// Whether the steps are equal.
fn same_step(a: &Step, b: &Step) -> bool
    ensures { IsTrue result ↔ (a.now ≡ b.now) }
{
    match (a, b) {
        (Step::Top, Step::Top) | (Step::Item, Step::Item) => true,
        (Step::Name(a), Step::Name(b)) => a.as_bytes() == b.as_bytes(),
        _ => false,
    }
}

fn copy_step(alloc: Global, step: &Step) -> Result<Step, AllocError>
    ensures { IfOk result (λ copy. copy ≡ step.now) }
{
    match step {
        Step::Top => Ok(Step::Top),
        Step::Item => Ok(Step::Item),
        Step::Name(name) => Ok(Step::Name(name.copy(alloc)?)),
    }
}

impl Record for PathRecord {
    ghost use Rattle.sx_record.specs.Spelling.{IsPath, path_bytes, path_fields};
    ghost use Rattle.sx_record.specs.Laws.{path-one_spelling};

    ghost spelling = { λ r. path_bytes (path_fields r) };

    ghost is_record = { IsPath };

    ghost one_spelling = { path-one_spelling };

    fn encode(&self, out: &mut FieldsOut) -> Result<(), AllocError> {
        let before = out.len();
        let put = put_path(out, &given(self));
        if put.is_err() {
            out.truncate(before);
        }
        put
    }

    fn decode(alloc: Global, fields: &mut Fields) -> Result<Option<PathRecord>, AllocError> {
        let mut ahead = Fields::new(fields.rest());
        let Some(given) = read_path(&mut ahead) else {
            return Ok(None);
        };
        let Some(path) = path_of(alloc, &given)? else {
            return Ok(None);
        };
        *fields = ahead;
        Ok(Some(path))
    }

    fn same(&self, other: &PathRecord) -> bool {
        self.parent == other.parent
            && self.count == other.count
            && same_step(&self.step, &other.step)
    }

    fn copy(&self, alloc: Global) -> Result<PathRecord, AllocError> {
        Ok(PathRecord {
            parent: self.parent,
            step: copy_step(alloc, &self.step)?,
            count: self.count,
        })
    }
}
