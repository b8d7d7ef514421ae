//! What the grammar says of texts that were worked out by hand.
use file_cut::{Tree, cut_line, cut_tree, lines, tokens};
use std::alloc::{AllocError, Global};
use std::test::Fail;

/// `{number}:{text};` of each line.
fn shown_lines(alloc: Global, buffer: &[u8]) -> Result<Vec<u8>, AllocError> {
    let mut shown = Vec::new(alloc);
    if buffer.len() <= 1 << 26 {
        for line in lines(buffer) {
            let number = format!(in alloc; "{}", line.number)?;
            shown.extend_from_slice(number.as_bytes())?;
            shown.push(b':')?;
            shown.extend_from_slice(line.text)?;
            shown.push(b';')?;
        }
    }
    Ok(shown)
}

/// `{place}:{text};` of each token.
fn shown_tokens(alloc: Global, line: &[u8]) -> Result<Vec<u8>, AllocError> {
    let mut shown = Vec::new(alloc);
    if line.len() <= 1 << 26 {
        for token in tokens(line) {
            let place = format!(in alloc; "{}", token.at)?;
            shown.extend_from_slice(place.as_bytes())?;
            shown.push(b'@')?;
            shown.extend_from_slice(token.text)?;
            shown.push(b';')?;
        }
    }
    Ok(shown)
}

/// The tree with a semicolon behind each part and entry, down to a depth.
fn show(shown: &mut Vec<u8>, tree: &Tree<'_>, depth: u32) -> Result<(), AllocError> {
    if depth == 0 {
        return Ok(());
    }
    match tree {
        Tree::Word(word) => shown.extend_from_slice(word.bytes())?,
        Tree::Tuple(parts) => {
            shown.push(b'(')?;
            for part in parts.as_slice().iter() {
                show(shown, part, depth - 1)?;
                shown.push(b';')?;
            }
            shown.push(b')')?;
        }
        Tree::Inj(index, inner) => {
            shown.push(b'@')?;
            shown.extend_from_slice(index.bytes())?;
            shown.push(b' ')?;
            show(shown, inner.get(), depth - 1)?;
        }
        Tree::Braces(entries) => {
            shown.push(b'{')?;
            for entry in entries.as_slice().iter() {
                show(shown, &entry.first, depth - 1)?;
                if let Some(second) = &entry.second {
                    shown.push(b':')?;
                    show(shown, second, depth - 1)?;
                }
                shown.push(b';')?;
            }
            shown.push(b'}')?;
        }
    }
    Ok(())
}

/// The tree of a text, or `-` where it spells none.
fn shown_tree(alloc: Global, text: &[u8]) -> Result<Vec<u8>, AllocError> {
    let mut shown = Vec::new(alloc);
    match cut_tree(alloc, text) {
        Ok(tree) => show(&mut shown, &tree, 80)?,
        Err(_fault) => shown.push(b'-')?,
    }
    Ok(shown)
}

/// The head of a line, `=` and its tree, or `-` where it is no line.
fn shown_line(alloc: Global, text: &[u8]) -> Result<Vec<u8>, AllocError> {
    let mut shown = Vec::new(alloc);
    match cut_line(alloc, text) {
        Ok(found) => {
            let (head, tree) = found;
            shown.extend_from_slice(head)?;
            shown.push(b'=')?;
            show(&mut shown, &tree, 80)?;
        }
        Err(_fault) => shown.push(b'-')?,
    }
    Ok(shown)
}

#[test]
fn lines_end_by_lf_and_keep_their_numbers(rt: HostRuntime) -> Result<(), Fail> {
    let rows: [(&[u8], &[u8]); 12] = [
        (b"", b""),
        (b"a", b"1:a;"),
        (b"a\n", b"1:a;"),
        (b"a\nb", b"1:a;2:b;"),
        (b"a\r\nb\r\n", b"1:a;2:b;"),
        (b"a\r", b"1:a;"),
        (b"a\r\r\n", b"1:a\r;"),
        (b"a\rb\n", b"1:a\rb;"),
        (b"\n\na\n\n", b"3:a;"),
        (b" \t\n\r\n \t# n\n#\nb # c\n", b"5:b # c;"),
        (b"\r \n\t a \xff\0", b"1:\r ;2:\t a \xff\0;"),
        (b"# note\r\nP X\r\n\n \t \n a: {b}\r", b"2:P X;5: a: {b};"),
    ];
    for (buffer, want) in rows {
        let shown = shown_lines(rt.alloc(), buffer)?;
        assert_eq!(rt; shown.as_slice(), want, "{buffer:?}");
    }
    Ok(())
}

#[test]
fn tokens_are_longest_words_and_single_bytes(rt: HostRuntime) -> Result<(), Fail> {
    let rows: [(&[u8], &[u8]); 7] = [
        (b"", b""),
        (b" \t ", b""),
        (b"aZ09_'.-/@$!?", b"0@aZ09_'.-/@$!?;"),
        (b" a.b:(inj 01", b"1@a.b;4@:;5@(;6@inj;10@01;"),
        (b"{x,}\r", b"0@{;1@x;2@,;3@};4@\r;"),
        (b"%%\0a", b"0@%;1@%;2@\0;3@a;"),
        (b"\t\x7f\x80\xff#", b"1@\x7f;2@\x80\xff;4@#;"),
    ];
    for (line, want) in rows {
        let shown = shown_tokens(rt.alloc(), line)?;
        assert_eq!(rt; shown.as_slice(), want, "{line:?}");
    }
    Ok(())
}

#[test]
fn texts_of_the_grammar_spell_their_trees(rt: HostRuntime) -> Result<(), Fail> {
    let rows: [(&[u8], &[u8]); 22] = [
        (b"a", b"a"),
        (b" \ta.1/2\t ", b"a.1/2"),
        (b"( ( a ) )", b"a"),
        (b"(a,b)", b"(a;b;)"),
        (b"((a, b), (c))", b"((a;b;);c;)"),
        (b"(((a,b)))", b"(a;b;)"),
        (b"{}", b"{}"),
        (b"{ \t }", b"{}"),
        (b"({})", b"{}"),
        (b"{a}", b"{a;}"),
        (b"{a,a}", b"{a;a;}"),
        (b"{a: 1, b, (c): -2/3}", b"{a:1;b;c:-2/3;}"),
        (b"{{a: b}: {}, {}}", b"{{a:b;}:{};{};}"),
        (b"inj 0 a", b"@0 a"),
        (b"inj 00 (0)", b"@00 0"),
        (b"inj 1(a,b)", b"@1 (a;b;)"),
        (b"inj\t12\tinj 0 {inj 3 a: b}", b"@12 @0 {@3 a:b;}"),
        (b"inja", b"inja"),
        (b"inj0", b"inj0"),
        (b"(Inj, INJ)", b"(Inj;INJ;)"),
        (b"\x80\xfe\xff", b"\x80\xfe\xff"),
        (b"\t ( \t a\t, \t{ b \t:\tc\t ,\t d } ) ", b"(a;{b:c;d;};)"),
    ];
    for (text, want) in rows {
        let shown = shown_tree(rt.alloc(), text)?;
        assert_eq!(rt; shown.as_slice(), want, "{text:?}");
    }
    Ok(())
}

/// No tree of the grammar.
const REFUSED: [&[u8]; 46] = [
    b"",
    b" \t",
    b"a b",
    b"a,b",
    b"a:",
    b"a:b",
    b",",
    b":",
    b"(",
    b")",
    b"()",
    b"( )",
    b"(a",
    b"a)",
    b"(a))",
    b"(,a)",
    b"(a,)",
    b"(a,,b)",
    b"(a b)",
    b"(a: b)",
    b"(a}",
    b"{",
    b"}",
    b"{a",
    b"{,}",
    b"{a,}",
    b"{,a}",
    b"{a:}",
    b"{:a}",
    b"{a b}",
    b"{a: b c}",
    b"{a: b: c}",
    b"{a)",
    b"{}{}",
    b"inj",
    b"(inj)",
    b"{inj: a}",
    b"inj a",
    b"inj 0",
    b"inj 1.5 a",
    b"inj -1 a",
    b"inj inj 0 a",
    b"inj (0) a",
    b"a\rb",
    b"a\0",
    b"#a",
];

#[test]
fn other_texts_spell_nothing(rt: HostRuntime) -> Result<(), Fail> {
    for text in REFUSED {
        let shown = shown_tree(rt.alloc(), text)?;
        assert_eq!(rt; shown.as_slice(), b"-".as_slice(), "{text:?}");
    }
    Ok(())
}

#[test]
fn a_line_is_a_head_a_colon_and_a_tree(rt: HostRuntime) -> Result<(), Fail> {
    let rows: [(&[u8], &[u8]); 13] = [
        (b"a:b", b"a=b"),
        (b"\ta\t:\t(b)\t", b"a=b"),
        (b"\xff0: {x: 1}", b"\xff0={x:1;}"),
        (b"injx: inj 0 a", b"injx=@0 a"),
        (b"inj: a", b"-"),
        (b"a: inj", b"-"),
        (b"a", b"-"),
        (b"a:", b"-"),
        (b": a", b"-"),
        (b"a b: c", b"-"),
        (b"(a): b", b"-"),
        (b"a: b: c", b"-"),
        (b"a: b\r", b"-"),
    ];
    for (line, want) in rows {
        let shown = shown_line(rt.alloc(), line)?;
        assert_eq!(rt; shown.as_slice(), want, "{line:?}");
    }
    Ok(())
}

/// The opening bytes this many times, a word, and the closing bytes as often.
fn nested(
    alloc: Global,
    opening: &[u8],
    closing: &[u8],
    depth: u32,
) -> Result<Vec<u8>, AllocError> {
    let mut text = Vec::new(alloc);
    for _ in 0..depth {
        text.extend_from_slice(opening)?;
    }
    text.push(b'a')?;
    for _ in 0..depth {
        text.extend_from_slice(closing)?;
    }
    Ok(text)
}

#[test]
fn sixty_four_may_be_open_and_no_more(rt: HostRuntime) -> Result<(), Fail> {
    let rows: [(&[u8], &[u8], u32, bool); 12] = [
        (b"(", b")", 64, true),
        (b"(", b")", 65, false),
        (b"{", b"}", 64, true),
        (b"{", b"}", 65, false),
        (b"inj 0 ", b"", 64, true),
        (b"inj 0 ", b"", 65, false),
        (b"{inj 1 ", b": b}", 32, true),
        (b"{inj 1 ", b": b}", 33, false),
        (b"{inj 1 ", b": (b)}", 32, true),
        (b"{inj 1 ", b": ((b))}", 32, false),
        (b"(b, ", b", {})", 63, true),
        (b"(b, ", b", {})", 64, false),
    ];
    for (opening, closing, depth, good) in rows {
        let text = nested(rt.alloc(), opening, closing, depth)?;
        let cut = cut_tree(rt.alloc(), text.as_slice()).is_ok();
        assert_eq!(rt; cut, good, "{opening:?} {depth}");
    }
    Ok(())
}

/// A text of 2^20 bytes: the front, the bytes again and again, and the back.
fn long(alloc: Global, front: &[u8], again: &[u8], back: &[u8]) -> Result<Vec<u8>, AllocError> {
    let mut text = Vec::new(alloc);
    text.extend_from_slice(front)?;
    for _ in 0..1 << 20 {
        if text
            .len()
            .saturating_add(again.len())
            .saturating_add(back.len())
            <= 1 << 20
        {
            text.extend_from_slice(again)?;
        }
    }
    text.extend_from_slice(back)?;
    Ok(text)
}

#[test]
fn long_texts_are_read_without_deep_recursion(rt: HostRuntime) -> Result<(), Fail> {
    let rows: [(&[u8], &[u8], &[u8], bool); 9] = [
        (b"", b"a", b"", true),
        (b"", b" ", b"a", true),
        (b"(a", b",b", b")", true),
        (b"{a", b",b:c", b"}", true),
        (b"", b"(", b"", false),
        (b"", b"{", b"", false),
        (b"", b"inj 0 ", b"a", false),
        (b"(a", b",", b")", false),
        (b"{", b"}", b"", false),
    ];
    for (front, again, back, good) in rows {
        let text = long(rt.alloc(), front, again, back)?;
        let cut = cut_tree(rt.alloc(), text.as_slice()).is_ok();
        assert_eq!(rt; cut, good, "{front:?} {again:?} {back:?}");
    }
    Ok(())
}

#[test]
fn a_million_lines_or_tokens_are_given_one_by_one(rt: HostRuntime) -> Result<(), Fail> {
    let text = long(rt.alloc(), b"a", b"\na", b"")?;
    let more = long(rt.alloc(), b"", b":", b"")?;
    let blank = long(rt.alloc(), b"", b"\n", b"")?;
    if text.len() <= 1 << 26 && more.len() <= 1 << 26 && blank.len() <= 1 << 26 {
        assert_eq!(rt; lines(text.as_slice()).count(), 1 << 19);
        assert_eq!(rt; tokens(more.as_slice()).count(), 1 << 20);
        assert_eq!(rt; lines(blank.as_slice()).count(), 0);
    }
    Ok(())
}
