//! The text of a path of a document.
ghost use Rattle.std.specs.Prelude.{◌≡◌, ◌++◌, ◌+◌, ◌<◌, ◌≤◌, false, IfErr, IfOk, IfSome, OnErr, OnOk, Some, length};
ghost use Rattle.std.specs.Option.{option_map};
ghost use Rattle.std.specs.FinMap as map;
ghost use Rattle.sx_model.specs.WrittenPath.{path_text_of, step_text, steps_text};
ghost use Rattle.sx_outside.specs.Faults.{Rose};
ghost use Rattle.sx_view.specs.Records.{Explains, IsDamaged};
ghost use Rattle.sx_paths.specs.OfState.{AreNoPaths};
ghost use Rattle.sx_paths.specs.Table.{row_of};
ghost use Rattle.sx_select.specs.Climb.{Climbs, HasBrokenAbove, IsPathText, IsWritten, ReadsOnce};

use std::alloc::{AllocError, Global};
use sx_json::write_string;
use sx_paths::{broken_path, read_path};
use sx_tree::bytes::Bytes;
use sx_tree::record::{PathRecord, Step};
use sx_view::{Fault, Records};

/// Adds what is written of a step.
fn write_step(step: &Step, out: &mut Bytes) -> Result<(), AllocError>
    ensures { OnOk result (out.new ≡ out.old ++ step_text step.now) }
{
    match step {
        Step::Top => Ok(()),
        Step::Item => out.extend_from_slice(b"[]"),
        Step::Name(name) => {
            out.push(b'/')?;
            write_string(name.as_bytes(), out)
        }
    }
}

/// What is written of the steps of a path, of which the last one comes first.
fn write_steps(alloc: Global, path: Vec<Step>) -> Result<Bytes, AllocError>
    ensures { IfOk result (λ text. text ≡ steps_text path.items) }
{
    let mut text = Bytes::new(alloc);
    let mut rest = path;
    while let Some(step) = rest.pop() {
        write_step(&step, &mut text)?;
    }
    Ok(text)
}

/// Adds the text of a path. A failure changes nothing.
fn append_path(alloc: Global, path: Vec<Step>, out: &mut Bytes) -> Result<(), AllocError>
    ensures ok { OnOk result (out.new ≡ out.old ++ path_text_of path.items) }
    ensures err { OnErr result (out.new ≡ out.old) }
{
    let text = write_steps(alloc, path)?;
    match text.as_slice() {
        [] => out.push(b'.'),
        written => out.extend_from_slice(written),
    }
}

/// The steps of the path, whose record this is, the last one first.
fn steps_up<P: Records<PathRecord>>(
    alloc: Global,
    records: &mut P,
    p: u32,
    found: PathRecord,
) -> Result<Vec<Step>, Fault>
    requires there { IfSome (P.told records.old) (λ told. option_map row_of (map.get told p) ≡ Some (row_of found)) }
    requires before { found.parent < p }
    ensures steps { IfOk result (λ steps. IfSome (P.told records.old) (λ told. Climbs told p steps.items 0)) }
    ensures fault { IfErr result (Explains (P.damages records.old) (Rose (P.faults records.old) (P.faults records.new))
        (HasBrokenAbove (P.told records.old) p)) }
    ensures gets { P.gets records.new ≤ P.gets records.old + found.parent }
    ensures once { IfOk result (λ steps. P.gets records.new + 1 ≤ P.gets records.old + length steps.items) }
    ensures never_falls { P.faults records.old ≤ P.faults records.new }
    ensures keeps { P.keeps records.old records.new }
{
    let mut steps = Vec::new(alloc);
    let mut at = found.parent;
    let Ok(()) = steps.push(found.step) else {
        return Err(Fault::OutOfMemory);
    };
    while at > 0 {
        let path = read_path(alloc, records, at)?;
        at = path.parent;
        let Ok(()) = steps.push(path.step) else {
            return Err(Fault::OutOfMemory);
        };
    }
    Ok(steps)
}

/// Appends the text of the path: its steps behind the top, each as `[]` or as `/` and the name as a JSON string
/// (RFC 8259, section 7), or `.` for the top path. False exactly where there is no path of this number. It reads each
/// path on the way up once.
///
/// # Errors
///
/// `out` is as it was. `Failed` only where the faults of the object below rose; `Damaged` by rule 26 where a path on
/// the way has no record, or its parent is not before it, and else only where the records are not told: never over the
/// records of a document; `OutOfMemory`.
pub fn path_text<P: Records<PathRecord>>(
    alloc: Global,
    records: &mut P,
    p: u32,
    out: &mut Bytes,
) -> Result<bool, Fault>
    ensures written { IfOk result (λ there. IfSome (P.told records.old)
        (λ told. IsWritten told p out.old out.new there)) }
    ensures text { IfOk result (IsPathText (P.told records.old) p out.old out.new) }
    ensures absent { IfOk result (λ there. there ≡ false → out.new ≡ out.old) }
    ensures unchanged { IfErr result (λ _. out.new ≡ out.old) }
    ensures sound { IfErr result (λ fault. IsDamaged fault → AreNoPaths (P.told records.old) 0) }
    ensures fault { IfErr result (Explains (P.damages records.old) (Rose (P.faults records.old) (P.faults records.new))
        (HasBrokenAbove (P.told records.old) p)) }
    ensures once { IfOk result (λ _. ReadsOnce (P.told records.old) p (P.gets records.old) (P.gets records.new)) }
    ensures gets { P.gets records.new ≤ P.gets records.old + p }
    ensures never_falls { P.faults records.old ≤ P.faults records.new }
    ensures keeps { P.keeps records.old records.new }
{
    if p == 0 {
        return Ok(false);
    }
    let Some(found) = records.get(alloc, p)? else {
        return Ok(false);
    };
    if found.parent >= p {
        return Err(Fault::Damaged(broken_path(p)));
    }
    let steps = steps_up(alloc, records, p, found)?;
    append_path(alloc, steps, out)?;
    Ok(true)
}
