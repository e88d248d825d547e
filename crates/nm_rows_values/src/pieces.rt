//! Tokens of whole inputs, and what is no token.
use nm_piece::{Unread, token};

/// How many tokens the input is cut into, and how many bytes are left.
fn tokens_of(bytes: &[u8]) -> (usize, usize) {
    let mut rest = bytes;
    let mut count = 0;
    for _ in 0..bytes.len() {
        let Ok((_, behind)) = token(rest, true) else {
            return (count, rest.len());
        };
        rest = behind;
        count = count.wrapping_add(1);
    }
    (count, rest.len())
}

#[test]
fn whole_documents_are_cut(rt: HostRuntime) {
    let document =
        "<?xml version=\"1.0\" encoding='UTF-8' ?>\n<!-- Aa - b --><?p q?>\n<r:a xmlns:r=\"u&#38;v\" b = '\u{F6}&lt;\"'>\n<b/>x &amp; \u{F6}]] ><![CDATA[a]]]]></r:a \n>\n";
    assert!(rt; tokens_of(document.as_bytes()) == (12, 0));
}

fn is_unfinished(text: &str) -> bool {
    matches!(token(text.as_bytes(), true), Err(Unread::Unfinished))
}

#[test]
fn unfinished_rests(rt: HostRuntime) {
    for text in [
        "",
        "<",
        "<!",
        "<!-",
        "<!--a--",
        "<a b",
        "<a b='&#1114111",
        "<a b=\"\u{F6}",
        "</a",
        "<?xml version='1",
        "<?xml version='1.0' encoding='a",
        "<![CDATA[a]]",
        "<a b=\"&",
    ] {
        assert!(rt; is_unfinished(text), "{text}");
    }
}

fn is_no_piece(text: &str) -> bool {
    matches!(token(text.as_bytes(), false), Err(Unread::NoPiece))
}

#[test]
fn rests_that_begin_no_piece(rt: HostRuntime) {
    for text in [
        "< a>",
        "</ a>",
        "<a / >",
        "<a b='1'c='2'>",
        "<1>",
        "<a:b:c>",
        "<a b='<'>",
        "<a b='&#1114112",
        "a]]>b<",
        "&x;<",
        "<!--a--b",
        "<?XML ?>",
        "<?xml version='1.1'?>",
        "<?xml encoding='a'?>",
        "<!a",
        "</a b=''>",
        "<a b='&l;'>",
    ] {
        assert!(rt; is_no_piece(text), "{text}");
    }
}
