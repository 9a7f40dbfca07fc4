//! Questions about a path.
ghost use Rattle.std.specs.Prelude.{◌≡◌, ◌<◌, ◌≤◌, ◌⊎◌, [], true, Err, IfErr, IfOk, None};
ghost use Rattle.sx_outside.specs.Faults.{Rose};
ghost use Rattle.sx_view.specs.Records as views;
ghost use Rattle.sx_paths.specs.OfState.{AreNoPaths};
ghost use Rattle.sx_select.specs.Climb.{IsPathText};
ghost use Rattle.sx_view.specs.declared.fault.QueryFault.TheVariants as faults;
ghost use Rattle.sx_query.specs.Causes.{Explains, IsBrokenPathOf, IsNoPath, Nothing};
ghost use Rattle.sx_query.specs.Gives.{GivesOfPaths};

use std::alloc::Global;
use sx_paths::{broken_path, read_path};
use sx_select::path_text;
use sx_tree::bytes::Bytes;
use sx_tree::query::Answer;
use sx_tree::record::PathRecord;
use sx_view::{Fault, QueryFault, Records};

/// The text of the path, which has a record.
fn text_of<P: Records<PathRecord>>(alloc: Global, paths: &mut P, path: u32) -> Result<Bytes, Fault>
    requires some { 1 ≤ path }
    ensures text { IfOk result (λ text. IsPathText (P.told paths.old) path [] text true) }
    ensures fault { IfErr result (views.Explains (P.damages paths.old)
        (Rose (P.faults paths.old) (P.faults paths.new)) (IsBrokenPathOf (P.told paths.old) path)) }
    ensures sound { IfErr result (λ fault. views.IsDamaged fault → AreNoPaths (P.told paths.old) path) }
    ensures never_falls { P.faults paths.old ≤ P.faults paths.new }
    ensures keeps { P.keeps paths.old paths.new }
{
    let mut written = Bytes::new(alloc);
    if !path_text(alloc, paths, path, &mut written)? {
        return Err(Fault::Damaged(broken_path(path)));
    }
    Ok(written)
}

/// How many values stand on the path, and its text, as an answer, where there are `count` paths.
pub(crate) fn answer_path<P: Records<PathRecord>>(
    alloc: Global,
    paths: &mut P,
    path: u32,
    count: u32,
) -> Result<Answer, QueryFault>
    ensures gives { GivesOfPaths (P.told paths.old) count path result }
    ensures no_path { (path ≡ 0) ⊎ (count < path) → result ≡ Err (faults.NoPath path) }
    ensures fault { IfErr result (Explains Nothing (IsNoPath count path)
        (Rose (P.faults paths.old) (P.faults paths.new))
        (λ damage. P.damages paths.old damage ⊎ IsBrokenPathOf (P.told paths.old) path damage)) }
    ensures never_falls { P.faults paths.old ≤ P.faults paths.new }
    ensures keeps { P.keeps paths.old paths.new }
{
    if path == 0 || path > count {
        return Err(QueryFault::NoPath { path });
    }
    let found = read_path(alloc, paths, path)?;
    let text = text_of(alloc, paths, path)?;
    Ok(Answer::Path {
        count: found.count,
        text,
    })
}
