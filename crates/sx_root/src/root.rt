ghost use Rattle.std.specs.Prelude.{List, ℕ, Some, ◌≡◌, ◌↔◌, ◌≤◌, ◌++◌, IsSome, IfSome, IfNone, IsTrue, OnErr, OnOk, length, take, FitsSigned};
ghost use Rattle.std.specs.Int.{cast_unsigned, to_be_bytes, w64};
ghost use Rattle.std.specs.Option.{option_map};
ghost use Rattle.std.specs.Str.{bytes_eq};
ghost use Rattle.sx_bytes.specs.Front.{Gives, front_number};
ghost use Rattle.sx_root.specs.declared.root.RevisionRoot.{RevisionRoot};
ghost use Rattle.sx_root.specs.Root.{IsRoot, front_root, mark, root_bytes};

use std::alloc::AllocError;
use sx_bytes::{Fields, FieldsOut};

/// The first bytes of a revision's head.
const MARK: [u8; 4] = *b"SXGR";

/// The head of a revision, which tells where it stands in the log and what it holds.
///
/// A root reference is the number of a frame plus 1, or 0 for none.
#[derive(Clone, Copy, Debug, PartialEq, Eq)]
pub struct RevisionRoot {
    /// The number of the revision, from 1.
    pub revision: u32,
    /// The time of its commit, in milliseconds since 1970 in UTC.
    pub time: i64,
    /// The number of its first frame, counted over the whole log from 0.
    pub first_frame: u32,
    /// How many frames it has.
    pub frames: u32,
    /// Where the tree of its nodes begins.
    pub node_root: u32,
    /// Where the list of its paths begins.
    pub path_root: u32,
    /// The number that the next new node takes.
    pub next: u32,
    /// How many nodes the tree has, the Document among them.
    pub nodes: u32,
    /// How many paths there are.
    pub paths: u32,
    /// The bytes of all its frames.
    pub body: u32,
}

impl RevisionRoot {
    /// Appends the 48 bytes. Errors: `AllocError` where memory runs out, and then nothing is appended.
    pub fn write(&self, out: &mut FieldsOut) -> Result<(), AllocError>
        ensures ok { OnOk result (out.new ≡ out.old ++ root_bytes self.now) }
        ensures err { OnErr result (out.new ≡ out.old) }
    {
        let before = out.len();
        let put = self.put(out);
        if put.is_err() {
            out.truncate(before);
        }
        put
    }

    // Appends the fields. Where memory runs out some of them may stand at the end.
    fn put(&self, out: &mut FieldsOut) -> Result<(), AllocError>
        ensures ok { OnOk result (out.new ≡ out.old ++ root_bytes self.now) }
        ensures front { take (length out.old) out.new ≡ out.old }
    {
        out.bytes(&MARK)?;
        out.u32(self.revision)?;
        put_time(out, self.time)?;
        out.u32(self.first_frame)?;
        out.u32(self.frames)?;
        out.u32(self.node_root)?;
        out.u32(self.path_root)?;
        out.u32(self.next)?;
        out.u32(self.nodes)?;
        out.u32(self.paths)?;
        out.u32(self.body)
    }

    /// Takes the 48 bytes at the front. None exactly where fewer are left or the mark is another one, and then nothing is taken.
    pub fn read(fields: &mut Fields) -> Option<RevisionRoot>
        ensures some { IsSome result ↔ ((48 ≤ length fields.old) × (take 4 fields.old ≡ mark)) }
        ensures written { IfSome result (λ root. fields.old ≡ root_bytes root ++ fields.new) }
        ensures read { Gives result fields.new (front_root fields.old) }
        ensures again { (root : RevisionRoot) (rest : List ℕ) → IsRoot root → fields.old ≡ root_bytes root ++ rest → (result ≡ Some root) × (fields.new ≡ rest) }
        ensures none { IfNone result (fields.new ≡ fields.old) }
    {
        let mut ahead = Fields::new(fields.rest());
        let root = read_fields(&mut ahead)?;
        *fields = ahead;
        Some(root)
    }
}

// The fields at the front. None exactly where too few bytes are left for them, or the mark is another one.
#[tactic(auto, unfolding(crate::specs::Root::front_root))]
fn read_fields(fields: &mut Fields) -> Option<RevisionRoot>
    ensures some { IsSome result ↔ ((48 ≤ length fields.old) × (take 4 fields.old ≡ mark)) }
    ensures written { IfSome result (λ root. fields.old ≡ root_bytes root ++ fields.new) }
    ensures read { Gives result fields.new (front_root fields.old) }
{
    let given = fields.bytes(4)?;
    if !is_mark(given) {
        return None;
    }
    let revision = fields.u32()?;
    let time = read_time(fields)?;
    let first_frame = fields.u32()?;
    let frames = fields.u32()?;
    let node_root = fields.u32()?;
    let path_root = fields.u32()?;
    let next = fields.u32()?;
    let nodes = fields.u32()?;
    let paths = fields.u32()?;
    let body = fields.u32()?;
    Some(RevisionRoot {
        revision,
        time,
        first_frame,
        frames,
        node_root,
        path_root,
        next,
        nodes,
        paths,
        body,
    })
}

// The bytes are the mark.
fn is_mark(bytes: &[u8]) -> bool
    ensures is { IsTrue result ↔ (bytes.now ≡ mark) }
    ensures test { result ≡ bytes_eq bytes.now mark }
{
    bytes == MARK.as_slice()
}

// The time at the front, in two's complement.
fn read_time(fields: &mut Fields) -> Option<i64>
    ensures enough { IsSome result ↔ (8 ≤ length fields.old) }
    ensures written { IfSome result (λ time. fields.old ≡ to_be_bytes w64 (cast_unsigned w64 time) ++ fields.new) }
    ensures read { Gives (option_map (cast_unsigned w64) result) fields.new (front_number w64 fields.old) }
    ensures range { IfSome result (λ time. FitsSigned w64 time) }
{
    let bits = fields.u64()?;
    Some(bits.cast_signed())
}

// Appends the time in two's complement.
fn put_time(out: &mut FieldsOut, time: i64) -> Result<(), AllocError>
    ensures ok { OnOk result (out.new ≡ out.old ++ to_be_bytes w64 (cast_unsigned w64 time)) }
    ensures err { OnErr result (out.new ≡ out.old) }
{
    out.u64(time.cast_unsigned())
}
