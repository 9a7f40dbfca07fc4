//! Edits and questions, with the replies that the definitions give.
use crate::checks::replies;
use std::test::Fail;

#[test]
fn an_empty_document_has_a_node(rt: HostRuntime) -> Result<(), Fail> {
    replies(
        &rt,
        rt.alloc(),
        &[
            (
                b"open 0\ntext 0\nhash 0\nnode 0",
                b"ok 0\nok empty\nok 6e340b9cffb37a989ca544e6bb780a2c\nok Document - - - - - 0 0 0 -\n",
            ),
            (
                b"paths\npath 1\naxis child 0\nselect .\nvalid 0\nnode 1",
                b"ok 0\nrefused NoPath 1\nok\nok\nok\nrefused NoNode 1\n",
            ),
            (
                b"load [1,2,3]\ncommit\nopen latest\ntext 0\nnode 1\naxis child 1\npaths\npath 2\npath 0\npath 3",
                b"ok 1\nok 1 1000\nok 1\nok [1,2,3]\nok Array 0 - - 2 4 3 3 1 -\nok 2 3 4\nok 2\nok 3 []\nrefused NoPath 0\nrefused NoPath 3\n",
            ),
        ],
    )
}

#[test]
fn other_edits_are_refused(rt: HostRuntime) -> Result<(), Fail> {
    replies(
        &rt,
        rt.alloc(),
        &[
            (
                b"load {\"a\":1}\nfield last 1 \"a\" 2\ninsert before 0 1\ninsert last 0 5\ninsert last 1 5\ninsert before 3 5\nremove 9\nfield last 1 \"b\" 2",
                b"ok 1\nrefused NameTaken 2\nrefused WrongKind 0 Document\nrefused DocumentFull 0\nrefused NameMissing\nrefused WrongKind 3 Number\nrefused NoNode 9\nok 4\n",
            ),
            (
                b"load []\nfield last 1 \"x\" 1\nset 1 1\nrename 1 \"x\"\nreplace 0 1\nremove 0",
                b"ok 1\nrefused NameUnasked\nrefused WrongKind 1 Array\nrefused WrongKind 1 Array\nrefused WrongKind 0 Document\nrefused WrongKind 0 Document\n",
            ),
        ],
    )
}

#[test]
fn hashes_and_paths_stay(rt: HostRuntime) -> Result<(), Fail> {
    replies(
        &rt,
        rt.alloc(),
        &[
            (
                b"load [[1,2],[2,1]]\ncommit\nopen 1\nhash 2\nhash 5",
                b"ok 1\nok 1 1000\nok 1\nok 87211b65bcac8e1938e5a5de6d5f4675\nok 87211b65bcac8e1938e5a5de6d5f4675\n",
            ),
            (
                b"load {\"a\":1}\ncommit\nremove 2\ncommit\nopen 2\npath 2\nfield last 1 \"a\" 5\ncommit\nopen 3\npath 2\nnode 5",
                b"ok 1\nok 1 1000\nok\nok 2 1000\nok 2\nok 0 /\"a\"\nok 4\nok 3 1000\nok 3\nok 1 /\"a\"\nok Number 4 - - - - 0 0 2 5\n",
            ),
        ],
    )
}

const ORDERS: &[u8] =
    b"load {\"orders\":[{\"id\":17,\"state\":\"open\",\"lines\":[{\"sku\":\"A-1\",\"qty\":2}]}]}\ncommit\nset 8 \"paid\"\ncommit\nremove 7\ncommit\nopen 2\nselect //state\nselect /orders[]/lines[]/qty\npath 5\nnode 7\ntext 4\nopen 1\naxis ancestor 8\naxis following 8\naxis preceding 8\naxis following-sibling 5\naxis preceding-sibling 9\naxis descendant 9\nopen 3\ntext 8\ntext 4";

const ORDERS_SAID: &[u8] =
    b"ok 1\nok 1 1000\nok\nok 2 1000\nok\nok 3 1000\nok 2\nok 8\nok 15\nok 1 /\"orders\"[]/\"state\"\nok Key 4 5 9 8 8 1 1 5 \"state\"\nok {\"id\":17,\"state\":\"paid\",\"lines\":[{\"sku\":\"A-1\",\"qty\":2}]}\nok 1\nok 7 4 3 2 1 0\nok 9 10 11 12 13 14 15\nok 6 5\nok 7 9\nok 7 5\nok 10 11 12 13 14 15\nok 3\nrefused NoNode 8\nok {\"id\":17,\"lines\":[{\"sku\":\"A-1\",\"qty\":2}]}\n";

const TIMES: &[u8] =
    b"load [{\"validFrom\":\"2024-01-01T00:00:00Z\",\"validTo\":\"2025-01-01T00:00:00Z\"},{\"validFrom\":\"2024-06-01T00:00:00Z\"}]\ncommit\nopen 1\nvalid 1704067199999\nvalid 1717199999999\nvalid 1717200000000\nvalid 1735689600000";

#[test]
fn a_realistic_document_is_asked_for(rt: HostRuntime) -> Result<(), Fail> {
    replies(
        &rt,
        rt.alloc(),
        &[
            (ORDERS, ORDERS_SAID),
            (TIMES, b"ok 1\nok 1 1000\nok 1\nok\nok 2\nok 2 7\nok 7\n"),
        ],
    )
}
