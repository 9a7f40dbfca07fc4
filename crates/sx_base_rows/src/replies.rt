//! The bytes of replies.
ghost use Rattle.sx_script.specs.Told.{IsTold};

use std::alloc::{AllocError, Global};
use std::test::Fail;
use sx_bytes::Damage;
use sx_script::{Reply, Said, reply};
use sx_tree::bytes::Bytes;
use sx_tree::edit::EditRefusal;
use sx_tree::json_fault::JsonFault;
use sx_tree::numbers::Numbers;
use sx_tree::query::Answer;
use sx_tree::record::{Kind, NodeRecord};
use sx_tree::text::Text;

// A script's replies, one after another.
fn say(alloc: Global, out: &mut Bytes, said: Said) -> Result<(), AllocError>
    requires { IsTold said }
{
    reply(alloc, &Reply { client: None, said }, out)
}

fn say_of(alloc: Global, out: &mut Bytes, client: u32, said: Said) -> Result<(), AllocError>
    requires { IsTold said }
{
    reply(
        alloc,
        &Reply {
            client: Some(client),
            said,
        },
        out,
    )
}

#[test]
fn replies_to_the_writer(rt: HostRuntime) -> Result<(), Fail> {
    let alloc = rt.alloc();
    let mut out = Bytes::new(alloc);
    say(alloc, &mut out, Said::Done)?;
    say(alloc, &mut out, Said::First(1))?;
    say(
        alloc,
        &mut out,
        Said::Committed {
            revision: 1,
            time: 1000,
        },
    )?;
    say(
        alloc,
        &mut out,
        Said::Committed {
            revision: 2,
            time: -5,
        },
    )?;
    say(
        alloc,
        &mut out,
        Said::LogFull {
            frames: 7,
            revisions: 8,
        },
    )?;
    say(
        alloc,
        &mut out,
        Said::CommitTooLarge {
            bytes: 4_294_967_296,
        },
    )?;
    say(alloc, &mut out, Said::FailedStage { stage: 2 })?;
    say(alloc, &mut out, Said::Stopped { stage: 1 })?;
    let wanted =
        b"ok\nok 1\nok 1 1000\nok 2 -5\nrefused LogFull 7 8\nrefused CommitTooLarge 4294967296\n\
        refused Failed 2\nrefused Stopped 1\n";
    assert_eq!(rt; out.as_slice(), wanted.as_slice());
    Ok(())
}

#[test]
fn refusals(rt: HostRuntime) -> Result<(), Fail> {
    let alloc = rt.alloc();
    let mut out = Bytes::new(alloc);
    say(alloc, &mut out, Said::NoCommand)?;
    say(alloc, &mut out, Said::Json(JsonFault::BadByte { at: 1 }))?;
    say(alloc, &mut out, Said::Json(JsonFault::Ended))?;
    say(
        alloc,
        &mut out,
        Said::Refused(EditRefusal::WrongKind {
            node: 3,
            kind: Kind::Str,
        }),
    )?;
    say(alloc, &mut out, Said::Refused(EditRefusal::NameMissing))?;
    say(alloc, &mut out, Said::Missing { asked: 3, seen: 1 })?;
    say(alloc, &mut out, Said::NoNode { node: 9 })?;
    say(alloc, &mut out, Said::NoPath { path: 4 })?;
    say(alloc, &mut out, Said::Failed)?;
    let damage = Damage {
        place: 16384,
        rule: 3,
        kept: [0; 32],
        found: [0; 32],
    };
    say(alloc, &mut out, Said::Damaged(damage))?;
    let wanted =
        b"refused line\nrefused Json BadByte 1\nrefused Json Ended\nrefused WrongKind 3 String\n\
        refused NameMissing\nrefused Missing 3 1\nrefused NoNode 9\nrefused NoPath 4\nrefused Failed\n\
        refused Damaged 16384 3\n";
    assert_eq!(rt; out.as_slice(), wanted.as_slice());
    Ok(())
}

fn an_array(alloc: Global) -> Result<NodeRecord, Fail> {
    Ok(NodeRecord {
        kind: Kind::Array,
        parent: Some(0),
        left: None,
        right: None,
        first: Some(2),
        last: Some(4),
        children: 3,
        descendants: 3,
        hash: 0,
        path: 1,
        label: Text::new(alloc, b"")?,
    })
}

fn a_key(alloc: Global) -> Result<NodeRecord, Fail> {
    Ok(NodeRecord {
        kind: Kind::Key,
        parent: Some(4),
        left: Some(5),
        right: Some(9),
        first: Some(8),
        last: Some(8),
        children: 1,
        descendants: 1,
        hash: 0,
        path: 5,
        label: Text::new(alloc, b"state")?,
    })
}

#[test]
fn answers(rt: HostRuntime) -> Result<(), Fail> {
    let alloc = rt.alloc();
    let mut out = Bytes::new(alloc);
    let mut numbers = Numbers::new(alloc);
    numbers.push(2)?;
    numbers.push(10)?;
    let text = Bytes::from_vec(Vec::from_slice(alloc, b"{\"a\":1}")?);
    let path = Bytes::from_vec(Vec::from_slice(alloc, b"/\"a\"/[]")?);
    say(alloc, &mut out, Said::Opened(2))?;
    say(alloc, &mut out, Said::Answer(Answer::Text(text)))?;
    say(alloc, &mut out, Said::Answer(Answer::Empty))?;
    let array = an_array(alloc)?;
    say(alloc, &mut out, Said::Answer(Answer::Node(array)))?;
    let key = a_key(alloc)?;
    say_of(alloc, &mut out, 31, Said::Answer(Answer::Node(key)))?;
    let hash = 0x6e340b9cffb37a989ca544e6bb780a2c;
    say_of(alloc, &mut out, 0, Said::Answer(Answer::Hash(hash)))?;
    say(alloc, &mut out, Said::Answer(Answer::Nodes(numbers)))?;
    say(
        alloc,
        &mut out,
        Said::Answer(Answer::Path {
            count: 2,
            text: path,
        }),
    )?;
    say(alloc, &mut out, Said::Answer(Answer::Total(0)))?;
    let wanted = b"ok 2\nok {\"a\":1}\nok empty\nok Array 0 - - 2 4 3 3 1 -\n\
        r31: ok Key 4 5 9 8 8 1 1 5 \"state\"\nw: ok 6e340b9cffb37a989ca544e6bb780a2c\nok 2 10\n\
        ok 2 /\"a\"/[]\nok 0\n";
    assert_eq!(rt; out.as_slice(), wanted.as_slice());
    Ok(())
}
