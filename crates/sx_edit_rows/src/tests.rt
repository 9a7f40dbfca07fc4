ghost use Rattle.std.specs.Prelude.{◌<◌, ◌≤◌};

use crate::tables::{
    BACK, BACK_PATHS, BRANCHED, BRANCHED_PATHS, DEEP, DEEP_AGAIN_PATHS, DEEP_NAMED,
    DEEP_NAMED_PATHS, DEEP_PATHS, EMPTIED_PATHS, EMPTY, FIELDS, FIELDS_PATHS, FIRST_REPLACED,
    FOUR_PATHS, LAST_REPLACED, LOADED, LOADED_PATHS, MIDDLE_REPLACED, MIRRORED, NAMED, NAMED_PATHS,
    NESTED_PATHS, NEW_ALONE, NEW_AT_0, NEW_AT_1, NEW_AT_2, NEW_AT_3, NEW_BEFORE, NEW_BEHIND,
    NEW_MEMBER, NEW_MEMBER_PATHS, NO_FIRST, NO_KEY, NO_KEY_PATHS, NO_LAST, NO_MIDDLE, NONE,
    NONE_PATHS, ONE, ONE_GONE_PATHS, ONE_PATHS, PAIRS, REPLACED_PATHS, SCALAR, SHORTER_PATHS,
    THREE, THREE_PATHS, TWO_PATHS,
};
use std::alloc::Global;
use std::test::Fail;
use sx_bytes::{Fields, FieldsOut, number_damage};
use sx_edit::{EditFault, apply};
use sx_json::read;
use sx_paths::PathTable;
use sx_record::Record;
use sx_tree::edit::{Edit, EditRefusal, Edited, Place};
use sx_tree::json::Scalar;
use sx_tree::literal::Literal;
use sx_tree::record::{Kind, NodeRecord, PathRecord, Step};
use sx_tree::text::Text;
use sx_view::{MemRecords, Records, RecordsMut};

/// The number that the next new node would take.
const NEXT: u32 = 9;

/// A number above those of all tables.
const END: u32 = 16;

/// The records of nodes and the paths of a document.
#[derive(Drop)]
struct Document {
    nodes: MemRecords<NodeRecord>,
    paths: PathTable,
}

/// The records that are spelled so.
fn records_of<R: Record>(alloc: Global, rows: &[(u32, &[u8])]) -> Result<MemRecords<R>, Fail> {
    let mut records = MemRecords::new(alloc);
    for (number, bytes) in rows {
        let mut fields = Fields::new(bytes);
        if let Some(record) = R::decode(alloc, &mut fields)? {
            records.put(alloc, *number, record)?;
        }
    }
    Ok(records)
}

/// The document of these nodes and paths.
fn document_of(
    alloc: Global,
    nodes: &[(u32, &[u8])],
    paths: &[(u32, &[u8])],
) -> Result<Document, Fail> {
    let mut count: u32 = 0;
    for _row in paths {
        count = u32::saturating_add(count, 1);
    }
    let nodes = records_of(alloc, nodes)?;
    let mut rows = records_of::<PathRecord>(alloc, paths)?;
    let paths = PathTable::load(alloc, &mut rows, count)?;
    Ok(Document { nodes, paths })
}

/// The bytes of the row with this number, or none where there is none.
fn row<'a>(rows: &'a [(u32, &'a [u8])], number: u32) -> &'a [u8] {
    let mut wanted: &[u8] = b"";
    for (there, bytes) in rows {
        if *there == number {
            wanted = bytes;
        }
    }
    wanted
}

/// The spelling of the record, or no bytes where there is none.
fn spelling<R: Record>(alloc: Global, record: Option<&R>) -> Result<Vec<u8>, Fail> {
    let mut out = FieldsOut::new(alloc);
    if let Some(record) = record {
        record.encode(&mut out)?;
    }
    Ok(out.into_vec())
}

impl Document {
    fn edit(&mut self, alloc: Global, edit: &Edit, next: u32) -> Result<Edited, EditFault>
        requires { next ≤ 1_073_741_824 }
    {
        apply(alloc, &mut self.nodes, &mut self.paths, edit, next)
    }

    /// Whether the nodes and the paths are these and no others below the end.
    fn is(
        &mut self,
        alloc: Global,
        nodes: &[(u32, &[u8])],
        paths: &[(u32, &[u8])],
    ) -> Result<bool, Fail> {
        for number in 0..END {
            let node = self.nodes.get(alloc, number)?;
            if spelling(alloc, node.as_ref())?.as_slice() != row(nodes, number) {
                return Ok(false);
            }
            let path = self.paths.record(number);
            if spelling(alloc, path)?.as_slice() != row(paths, number) {
                return Ok(false);
            }
        }
        Ok(true)
    }
}

/// What is told of an edit that makes no node.
fn done() -> Result<Edited, EditFault> {
    Ok(Edited {
        first: None,
        next: NEXT,
    })
}

/// What is told of an edit that makes nodes.
fn made(first: u32, next: u32) -> Result<Edited, EditFault> {
    Ok(Edited {
        first: Some(first),
        next,
    })
}

fn refused(refusal: EditRefusal) -> Result<Edited, EditFault> {
    Err(EditFault::Refused(refusal))
}

/// An insert of the value that this text spells.
fn insert(alloc: Global, place: Place, name: Option<&[u8]>, text: &[u8]) -> Result<Edit, Fail> {
    let name = match name {
        Some(name) => Some(Text::new(alloc, name)?),
        None => None,
    };
    let value = read(alloc, text)?;
    Ok(Edit::Insert { place, name, value })
}

/// Whether the scalar at node 3 leaves these nodes, and all paths.
fn becomes(
    alloc: Global,
    document: &mut Document,
    value: Scalar,
    nodes: &[(u32, &[u8])],
) -> Result<bool, Fail> {
    let edit = Edit::SetScalar { node: 3, value };
    if document.edit(alloc, &edit, NEXT) != done() {
        return Ok(false);
    }
    document.is(alloc, nodes, &FIELDS_PATHS)
}

#[test]
fn scalars(rt: HostRuntime) -> Result<(), Fail> {
    let alloc = rt.alloc();
    let mut document = document_of(alloc, &FIELDS, &FIELDS_PATHS)?;
    let letter = Scalar::Str(Text::new(alloc, b"x")?);
    assert!(rt; becomes(alloc, &mut document, letter, &SCALAR)?);
    let one = Scalar::Number(Literal::new(alloc, b"1")?);
    assert!(rt; becomes(alloc, &mut document, one, &FIELDS)?);
    Ok(())
}

#[test]
fn scalars_refused(rt: HostRuntime) -> Result<(), Fail> {
    let alloc = rt.alloc();
    let mut document = document_of(alloc, &FIELDS, &FIELDS_PATHS)?;
    let kind = Kind::Array;
    let refusals = [
        (5, EditRefusal::WrongKind { node: 5, kind }),
        (9, EditRefusal::NoNode { node: 9 }),
    ];
    for (node, refusal) in refusals {
        let value = Scalar::Null;
        let edit = Edit::SetScalar { node, value };
        assert_eq!(rt; document.edit(alloc, &edit, NEXT), refused(refusal));
    }
    assert!(rt; document.is(alloc, &FIELDS, &FIELDS_PATHS)?);
    Ok(())
}

#[test]
fn equal_sums_of_hashes(rt: HostRuntime) -> Result<(), Fail> {
    let alloc = rt.alloc();
    let mut document = document_of(alloc, &PAIRS, &NESTED_PATHS)?;
    let value = Scalar::Number(Literal::new(alloc, b"2")?);
    let edit = Edit::SetScalar { node: 4, value };
    assert_eq!(rt; document.edit(alloc, &edit, NEXT), done());
    assert!(rt; document.is(alloc, &MIRRORED, &NESTED_PATHS)?);
    let left = document.nodes.get(alloc, 2)?.map(|r| r.hash);
    let right = document.nodes.get(alloc, 5)?.map(|r| r.hash);
    assert_eq!(rt; left, Some(HASH));
    assert_eq!(rt; right, Some(HASH));
    Ok(())
}

/// The hash of the nodes 2 and 5 of `[[1,2],[2,1]]`.
const HASH: u128 = 0x87211b65bcac8e1938e5a5de6d5f4675;

#[test]
fn loads(rt: HostRuntime) -> Result<(), Fail> {
    let alloc = rt.alloc();
    let mut document = document_of(alloc, &EMPTY, &[])?;
    let value = read(alloc, b"[[1,2],[2,1]]")?;
    assert_eq!(rt; document.edit(alloc, &Edit::Load { value }, 1), made(1, 8));
    assert!(rt; document.is(alloc, &MIRRORED, &NESTED_PATHS)?);
    let mut document = document_of(alloc, &ONE, &ONE_PATHS)?;
    let value = read(alloc, b"{\"a\":1}")?;
    assert_eq!(rt; document.edit(alloc, &Edit::Load { value }, 3), made(3, 6));
    assert!(rt; document.is(alloc, &LOADED, &LOADED_PATHS)?);
    Ok(())
}

/// What is below a member stands on paths that come before that of the next member.
#[test]
fn branches(rt: HostRuntime) -> Result<(), Fail> {
    let alloc = rt.alloc();
    let mut document = document_of(alloc, &EMPTY, &[])?;
    let value = read(alloc, b"{\"a\":{\"x\":1},\"b\":2}")?;
    assert_eq!(rt; document.edit(alloc, &Edit::Load { value }, 1), made(1, 8));
    assert!(rt; document.is(alloc, &BRANCHED, &BRANCHED_PATHS)?);
    Ok(())
}

/// Whether a 7 that comes to the place, as this node, makes of one document the other.
fn comes(
    alloc: Global,
    before: (&[(u32, &[u8])], &[(u32, &[u8])]),
    next: u32,
    place: Place,
    after: (&[(u32, &[u8])], &[(u32, &[u8])]),
) -> Result<bool, Fail>
    requires { next < 100 }
{
    let mut document = document_of(alloc, before.0, before.1)?;
    let edit = insert(alloc, place, None, b"7")?;
    if document.edit(alloc, &edit, next) != made(next, next + 1) {
        return Ok(false);
    }
    document.is(alloc, after.0, after.1)
}

/// Whether a 7 that comes to the place in an array of three leaves these nodes.
fn comes_fourth(alloc: Global, place: Place, nodes: &[(u32, &[u8])]) -> Result<bool, Fail> {
    comes(
        alloc,
        (&THREE, &THREE_PATHS),
        5,
        place,
        (nodes, &FOUR_PATHS),
    )
}

#[test]
fn inserts(rt: HostRuntime) -> Result<(), Fail> {
    let alloc = rt.alloc();
    for place in [Place::First(1), Place::Last(1)] {
        let alone: (&[(u32, &[u8])], &[(u32, &[u8])]) = (&NEW_ALONE, &ONE_PATHS);
        assert!(rt; comes(alloc, (&NONE, &NONE_PATHS), 2, place, alone)?);
    }
    for place in [Place::First(1), Place::Before(2)] {
        let before: (&[(u32, &[u8])], &[(u32, &[u8])]) = (&NEW_BEFORE, &TWO_PATHS);
        assert!(rt; comes(alloc, (&ONE, &ONE_PATHS), 3, place, before)?);
    }
    for place in [Place::After(2), Place::Last(1)] {
        let behind: (&[(u32, &[u8])], &[(u32, &[u8])]) = (&NEW_BEHIND, &TWO_PATHS);
        assert!(rt; comes(alloc, (&ONE, &ONE_PATHS), 3, place, behind)?);
    }
    assert!(rt; comes_fourth(alloc, Place::First(1), &NEW_AT_0)?);
    assert!(rt; comes_fourth(alloc, Place::Before(2), &NEW_AT_0)?);
    assert!(rt; comes_fourth(alloc, Place::After(2), &NEW_AT_1)?);
    assert!(rt; comes_fourth(alloc, Place::Before(3), &NEW_AT_1)?);
    assert!(rt; comes_fourth(alloc, Place::After(3), &NEW_AT_2)?);
    assert!(rt; comes_fourth(alloc, Place::Before(4), &NEW_AT_2)?);
    assert!(rt; comes_fourth(alloc, Place::After(4), &NEW_AT_3)?);
    assert!(rt; comes_fourth(alloc, Place::Last(1), &NEW_AT_3)?);
    Ok(())
}

#[test]
fn members(rt: HostRuntime) -> Result<(), Fail> {
    let alloc = rt.alloc();
    for place in [Place::After(2), Place::Before(4)] {
        let mut document = document_of(alloc, &FIELDS, &FIELDS_PATHS)?;
        let edit = insert(alloc, place, Some(b"c"), b"{\"d\":[true,null]}")?;
        assert_eq!(rt; document.edit(alloc, &edit, NEXT), made(9, 15));
        assert!(rt; document.is(alloc, &NEW_MEMBER, &NEW_MEMBER_PATHS)?);
    }
    Ok(())
}

#[test]
fn replacements(rt: HostRuntime) -> Result<(), Fail> {
    let alloc = rt.alloc();
    let rows: [(u32, &[(u32, &[u8])]); 3] = [
        (2, &FIRST_REPLACED),
        (3, &MIDDLE_REPLACED),
        (4, &LAST_REPLACED),
    ];
    for (node, table) in rows {
        let mut document = document_of(alloc, &THREE, &THREE_PATHS)?;
        let value = read(alloc, b"[[],\"x\"]")?;
        let edit = Edit::Replace { node, value };
        assert_eq!(rt; document.edit(alloc, &edit, 5), made(5, 8));
        assert!(rt; document.is(alloc, table, &REPLACED_PATHS)?);
    }
    let mut document = document_of(alloc, &FIELDS, &FIELDS_PATHS)?;
    let refusals = [
        (
            0,
            EditRefusal::WrongKind {
                node: 0,
                kind: Kind::Document,
            },
        ),
        (
            2,
            EditRefusal::WrongKind {
                node: 2,
                kind: Kind::Key,
            },
        ),
        (9, EditRefusal::NoNode { node: 9 }),
    ];
    for (node, refusal) in refusals {
        let value = read(alloc, b"1")?;
        let edit = Edit::Replace { node, value };
        assert_eq!(rt; document.edit(alloc, &edit, NEXT), refused(refusal));
    }
    assert!(rt; document.is(alloc, &FIELDS, &FIELDS_PATHS)?);
    Ok(())
}

/// Whether the fields without the node are these nodes and paths.
fn left_without(
    alloc: Global,
    node: u32,
    nodes: &[(u32, &[u8])],
    paths: &[(u32, &[u8])],
) -> Result<bool, Fail> {
    let mut document = document_of(alloc, &FIELDS, &FIELDS_PATHS)?;
    if document.edit(alloc, &Edit::Remove { node }, NEXT) != done() {
        return Ok(false);
    }
    document.is(alloc, nodes, paths)
}

/// The paths of what goes stay, on which no value stands then.
#[test]
fn removals(rt: HostRuntime) -> Result<(), Fail> {
    let alloc = rt.alloc();
    assert!(rt; left_without(alloc, 6, &NO_FIRST, &SHORTER_PATHS)?);
    assert!(rt; left_without(alloc, 7, &NO_MIDDLE, &SHORTER_PATHS)?);
    assert!(rt; left_without(alloc, 8, &NO_LAST, &SHORTER_PATHS)?);
    assert!(rt; left_without(alloc, 4, &NO_KEY, &NO_KEY_PATHS)?);
    assert!(rt; left_without(alloc, 1, &EMPTY, &EMPTIED_PATHS)?);
    let mut document = document_of(alloc, &ONE, &ONE_PATHS)?;
    assert_eq!(rt;
        document.edit(alloc, &Edit::Remove { node: 2 }, NEXT),
        done()
    );
    assert!(rt; document.is(alloc, &NONE, &ONE_GONE_PATHS)?);
    Ok(())
}

/// A member that comes back stands on the paths that it had.
#[test]
fn paths_again(rt: HostRuntime) -> Result<(), Fail> {
    let alloc = rt.alloc();
    let mut document = document_of(alloc, &FIELDS, &FIELDS_PATHS)?;
    assert_eq!(rt;
        document.edit(alloc, &Edit::Remove { node: 4 }, NEXT),
        done()
    );
    let edit = insert(alloc, Place::Last(1), Some(b"b"), b"[4]")?;
    assert_eq!(rt; document.edit(alloc, &edit, NEXT), made(9, 12));
    assert!(rt; document.is(alloc, &BACK, &BACK_PATHS)?);
    Ok(())
}

/// All that is below a Key stands on other paths under its new name, and on the first ones under the old name.
#[test]
fn deep_names(rt: HostRuntime) -> Result<(), Fail> {
    let alloc = rt.alloc();
    let mut document = document_of(alloc, &DEEP, &DEEP_PATHS)?;
    assert_eq!(rt; renamed(alloc, &mut document, 2, b"c")?, done());
    assert!(rt; document.is(alloc, &DEEP_NAMED, &DEEP_NAMED_PATHS)?);
    assert_eq!(rt; renamed(alloc, &mut document, 2, b"a")?, done());
    assert!(rt; document.is(alloc, &DEEP, &DEEP_AGAIN_PATHS)?);
    Ok(())
}

/// Over paths that are not the document's, an edit is damaged, and changes nothing.
#[test]
fn missing_paths(rt: HostRuntime) -> Result<(), Fail> {
    let alloc = rt.alloc();
    let mut document = document_of(alloc, &ONE, &NONE_PATHS)?;
    let damage = number_damage(0, 26, 2, 2);
    assert_eq!(rt;
        document.edit(alloc, &Edit::Remove { node: 2 }, 3),
        Err(EditFault::Damaged(damage))
    );
    assert!(rt; document.is(alloc, &ONE, &NONE_PATHS)?);
    Ok(())
}

/// The sibling beside node 2 has no record.
#[test]
fn broken_link(rt: HostRuntime) -> Result<(), Fail> {
    let alloc = rt.alloc();
    let nodes = [THREE[0], THREE[1], THREE[2], THREE[4]];
    let mut document = document_of(alloc, &nodes, &THREE_PATHS)?;
    let damage = number_damage(0, 23, 2, 3);
    assert_eq!(rt;
        document.edit(alloc, &Edit::Remove { node: 2 }, NEXT),
        Err(EditFault::Damaged(damage))
    );
    assert!(rt; document.is(alloc, &nodes, &THREE_PATHS)?);
    Ok(())
}

/// Node 0 stands below itself.
#[test]
fn endless_walk(rt: HostRuntime) -> Result<(), Fail> {
    let alloc = rt.alloc();
    let nodes = [(0, THREE[1].1), THREE[1], THREE[2]];
    let mut document = document_of(alloc, &nodes, &THREE_PATHS)?;
    let damage = number_damage(0, 24, 9, 10);
    let value = Scalar::Null;
    assert_eq!(rt;
        document.edit(alloc, &Edit::SetScalar { node: 2, value }, NEXT),
        Err(EditFault::Damaged(damage))
    );
    assert!(rt; document.is(alloc, &nodes, &THREE_PATHS)?);
    Ok(())
}

/// Path 3 goes on from itself.
#[test]
fn path_from_itself(rt: HostRuntime) -> Result<(), Fail> {
    let alloc = rt.alloc();
    let paths = [FIELDS_PATHS[0], FIELDS_PATHS[1]];
    let mut document = document_of(alloc, &FIELDS, &paths)?;
    if document.paths.find(3, &Step::Item).is_none() && document.paths.len() < 3 {
        document.paths.enter(alloc, 3, Step::Item)?;
    }
    let edit = insert(alloc, Place::Last(5), None, b"5")?;
    let damage = number_damage(0, 26, 9, 3);
    assert_eq!(rt;
        document.edit(alloc, &edit, NEXT),
        Err(EditFault::Damaged(damage))
    );
    Ok(())
}

/// What is told of another name of the node.
fn renamed(
    alloc: Global,
    document: &mut Document,
    node: u32,
    name: &[u8],
) -> Result<Result<Edited, EditFault>, Fail> {
    let name = Text::new(alloc, name)?;
    Ok(document.edit(alloc, &Edit::Rename { node, name }, NEXT))
}

#[test]
fn names(rt: HostRuntime) -> Result<(), Fail> {
    let alloc = rt.alloc();
    let mut document = document_of(alloc, &FIELDS, &FIELDS_PATHS)?;
    assert_eq!(rt; renamed(alloc, &mut document, 4, b"b")?, done());
    assert!(rt; document.is(alloc, &FIELDS, &FIELDS_PATHS)?);
    assert_eq!(rt; renamed(alloc, &mut document, 2, b"c")?, done());
    assert!(rt; document.is(alloc, &NAMED, &NAMED_PATHS)?);
    Ok(())
}

#[test]
fn names_refused(rt: HostRuntime) -> Result<(), Fail> {
    let alloc = rt.alloc();
    let mut document = document_of(alloc, &FIELDS, &FIELDS_PATHS)?;
    let kind = Kind::Array;
    let refusals = [
        (2, EditRefusal::NameTaken { node: 4 }),
        (5, EditRefusal::WrongKind { node: 5, kind }),
        (9, EditRefusal::NoNode { node: 9 }),
    ];
    for (node, refusal) in refusals {
        assert_eq!(rt;
            renamed(alloc, &mut document, node, b"b")?,
            refused(refusal)
        );
    }
    assert!(rt; document.is(alloc, &FIELDS, &FIELDS_PATHS)?);
    Ok(())
}

/// The refusals of `{"a":1}`, each of which leaves it as it was.
#[test]
fn refusals(rt: HostRuntime) -> Result<(), Fail> {
    let alloc = rt.alloc();
    let mut document = document_of(alloc, &EMPTY, &[])?;
    let value = read(alloc, b"{\"a\":1}")?;
    assert_eq!(rt; document.edit(alloc, &Edit::Load { value }, 1), made(1, 4));
    let kind = Kind::Document;
    let rows: [(Place, Option<&[u8]>, EditRefusal); 5] = [
        (
            Place::Last(1),
            Some(b"a"),
            EditRefusal::NameTaken { node: 2 },
        ),
        (
            Place::Before(0),
            None,
            EditRefusal::WrongKind { node: 0, kind },
        ),
        (Place::Last(0), None, EditRefusal::DocumentFull { node: 0 }),
        (Place::Last(1), None, EditRefusal::NameMissing),
        (
            Place::Before(3),
            None,
            EditRefusal::WrongKind {
                node: 3,
                kind: Kind::Number,
            },
        ),
    ];
    for (place, name, refusal) in rows {
        let edit = insert(alloc, place, name, b"2")?;
        assert_eq!(rt; document.edit(alloc, &edit, 4), refused(refusal));
    }
    assert_eq!(rt;
        document.edit(alloc, &Edit::Remove { node: 9 }, 4),
        refused(EditRefusal::NoNode { node: 9 })
    );
    let edit = insert(alloc, Place::Last(1), Some(b"b"), b"2")?;
    assert_eq!(rt; document.edit(alloc, &edit, 4), made(4, 6));
    let mut document = document_of(alloc, &NONE, &NONE_PATHS)?;
    let edit = insert(alloc, Place::Last(1), Some(b"x"), b"1")?;
    assert_eq!(rt;
        document.edit(alloc, &edit, 2),
        refused(EditRefusal::NameUnasked)
    );
    Ok(())
}

#[test]
fn too_deep(rt: HostRuntime) -> Result<(), Fail> {
    let alloc = rt.alloc();
    let mut text = Vec::new(alloc);
    for _level in 0..256 {
        text.push(b'[')?;
    }
    for _level in 0..256 {
        text.push(b']')?;
    }
    let mut document = document_of(alloc, &EMPTY, &[])?;
    let value = read(alloc, text.as_slice())?;
    assert_eq!(rt;
        document.edit(alloc, &Edit::Load { value }, 1),
        made(1, 257)
    );
    let edit = insert(alloc, Place::Last(256), None, b"[]")?;
    assert_eq!(rt;
        document.edit(alloc, &edit, 257),
        refused(EditRefusal::TooDeep { depth: 257 })
    );
    Ok(())
}

#[test]
fn numbers_spent(rt: HostRuntime) -> Result<(), Fail> {
    let alloc = rt.alloc();
    let mut document = document_of(alloc, &NONE, &NONE_PATHS)?;
    let edit = insert(alloc, Place::Last(1), None, b"1")?;
    let last = 1_073_741_823;
    let next = 1_073_741_824;
    assert_eq!(rt; document.edit(alloc, &edit, last), made(last, next));
    assert_eq!(rt;
        document.edit(alloc, &edit, next),
        refused(EditRefusal::NumbersSpent { next })
    );
    Ok(())
}
