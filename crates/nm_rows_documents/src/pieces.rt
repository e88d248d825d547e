//! A piece of a document, copied from the bytes that hold it.
use nm_piece::next;

#[test]
fn a_tag_is_given_in_memory_of_its_own(rt: HostRuntime) {
    let found = next(rt.alloc(), b"<a b='c'/>", true);
    assert!(rt; matches!(&found, Ok(Some(_))));
}
