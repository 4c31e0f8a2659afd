//! Documents that are read.

use crate::asserting::got;
use gql_text::{read_document, read_sdl};

const READ: [&str; 3] = [
    "type Query{v:Int}",
    "scalar B,type Query{v:Int}#c\nscalar A",
    "type Query{v(a:ID=18446744073709551615,b:ID=-9223372036854775808,c:ID=-0):Int}",
];

#[test]
fn these_documents_are_read(rt: HostRuntime) {
    for document in READ {
        let read = got(&rt, read_document(rt.alloc(), document.as_bytes()));
        let copy = got(&rt, read.to_document(rt.alloc()));
        let owned = got(&rt, read_sdl(rt.alloc(), document.as_bytes()));
        assert!(rt; copy.definitions.len() == owned.definitions.len());
    }
}
