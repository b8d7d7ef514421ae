//! What no clause says: that terms, labels and lines come out as worked by hand, with ample memory.
use crate::tables::{Built, PAST, READ, REFUSED, STRAY, WITHIN};
use functor_terms::{LabelSet, Node, PartFault, Term, TermFault, TermPart, read_term, term_text};
use itoa::Buffer;
use std::alloc::{AllocError, Global};
use std::process::Abort;
use std::test::Fail;

/// The states.
fn states<'a>(alloc: Global) -> Result<TermPart<'a>, PartFault> {
    TermPart::over(alloc, Node::State, Vec::new(alloc))
}

#[test]
fn labels_below_a_bound_are_digits_alone(rt: HostRuntime) {
    let below = LabelSet::Below(10);
    for (word, number) in [
        ("0", Some(0)),
        ("9", Some(9)),
        ("007", Some(7)),
        ("10", None),
        ("00010", None),
        ("4294967296", None),
        ("", None),
        ("-1", None),
        ("a", None),
    ] {
        assert_eq!(rt; below.number(word.as_bytes()), number, "{word}");
    }
}

#[test]
fn parts_stand_one_behind_another(rt: HostRuntime) -> Result<(), Fail> {
    let alloc = rt.alloc();
    // 1 + {0,1} x X
    let mut places = Vec::new(alloc);
    let bits = LabelSet::Below(2);
    places.push(TermPart::over(alloc, Node::Constant(bits), Vec::new(alloc)).expect(
        &rt, "a part",
    ))?;
    places.push(states(alloc).expect(&rt, "a part"))?;
    let product = TermPart::over(alloc, Node::Product, places).expect(&rt, "a part");
    let mut summands = Vec::new(alloc);
    let one = LabelSet::Below(1);
    summands.push(TermPart::over(alloc, Node::Constant(one), Vec::new(alloc)).expect(
        &rt, "a part",
    ))?;
    summands.push(product)?;
    let term = TermPart::over(alloc, Node::Sum, summands)
        .expect(&rt, "a part")
        .into_term(alloc)?;
    assert_eq!(rt; term.len(), 5);
    assert_eq!(rt; term.children(0), [1, 2].as_slice());
    assert_eq!(rt; term.children(2), [3, 4].as_slice());
    assert_eq!(rt; term.try_copy(alloc)?.children(2), [3, 4].as_slice());
    Ok(())
}

/// Puts a number last.
fn put_number(text: &mut Vec<u8>, n: u32) -> Result<(), AllocError> {
    let mut digits = Buffer::new();
    text.extend_from_slice(digits.format(n).as_bytes())
}

/// Puts labels last: the number, or the words in braces.
fn put_labels(text: &mut Vec<u8>, labels: &LabelSet) -> Result<(), AllocError> {
    match labels {
        LabelSet::Below(n) => put_number(text, *n),
        LabelSet::Listed(words) => {
            text.extend_from_slice(b"{".as_slice())?;
            for i in 0..words.len() {
                if 0 < i {
                    text.extend_from_slice(b",".as_slice())?;
                }
                text.extend_from_slice(words.word(i))?;
            }
            text.extend_from_slice(b"}".as_slice())
        }
    }
}

/// Puts the letter of a node last, or its labels, with `^` before those of a power.
fn put_node(text: &mut Vec<u8>, node: &Node) -> Result<(), AllocError> {
    match node {
        Node::State => text.extend_from_slice(b"X".as_slice()),
        Node::Constant(labels) => put_labels(text, labels),
        Node::Naturals => text.extend_from_slice(b"N".as_slice()),
        Node::Product => text.extend_from_slice(b"x".as_slice()),
        Node::Sum => text.extend_from_slice(b"+".as_slice()),
        Node::Power(labels) => {
            text.extend_from_slice(b"^".as_slice())?;
            put_labels(text, labels)
        }
        Node::Powerset => text.extend_from_slice(b"P".as_slice()),
        Node::Bag => text.extend_from_slice(b"B".as_slice()),
        Node::Distribution => text.extend_from_slice(b"D".as_slice()),
        Node::Integers => text.extend_from_slice(b"Z".as_slice()),
        Node::Rationals => text.extend_from_slice(b"Q".as_slice()),
    }
}

/// Puts the numbers of children last, in brackets.
fn put_children(text: &mut Vec<u8>, children: &[u32]) -> Result<(), AllocError> {
    text.extend_from_slice(b"[".as_slice())?;
    for (i, child) in children.iter().enumerate() {
        if 0 < i {
            text.extend_from_slice(b",".as_slice())?;
        }
        put_number(text, *child)?;
    }
    text.extend_from_slice(b"]".as_slice())
}

/// The nodes of a term in preorder, each with its labels and children.
fn nodes_of(alloc: Global, term: &Term) -> Result<Vec<u8>, AllocError> {
    let mut text = Vec::new(alloc);
    for p in 0..term.len() {
        if 0 < p {
            text.extend_from_slice(b" ".as_slice())?;
        }
        put_node(&mut text, term.node(p))?;
        put_children(&mut text, term.children(p))?;
    }
    Ok(text)
}

/// The term that the line spells.
fn term_of<'a>(rt: &impl Abort, alloc: Global, about: &str, line: &'a [u8]) -> Term<'a> {
    match read_term(alloc, line) {
        Ok(term) => term,
        Err(fault) => panic!(rt; "{about}: {fault}"),
    }
}

/// Whether the line spells no term.
fn is_refused(alloc: Global, line: &[u8]) -> bool {
    match read_term(alloc, line) {
        Ok(_term) => false,
        Err(TermFault::Grammar) => true,
        Err(TermFault::NoMemory) => false,
    }
}

/// Asserts the nodes of the term that the line spells and its canonical text, which gives the same
/// nodes and the same text.
fn is_read(
    rt: &impl Abort,
    alloc: Global,
    about: &str,
    line: &[u8],
    nodes: &[u8],
    text: &[u8],
) -> Result<(), AllocError> {
    let term = term_of(rt, alloc, about, line);
    assert_eq!(rt; nodes_of(alloc, &term)?.as_slice(), nodes, "{about}");
    let printed = term_text(alloc, &term)?;
    assert_eq!(rt; printed.as_slice(), text, "{about}");
    let again = term_of(rt, alloc, about, &printed);
    assert_eq!(rt;
        nodes_of(alloc, &again)?.as_slice(),
        nodes,
        "{about}, read again"
    );
    assert_eq!(rt;
        term_text(alloc, &again)?.as_slice(),
        text,
        "{about}, read again"
    );
    Ok(())
}

#[test]
fn lines_are_read_as_worked_by_hand(rt: HostRuntime) -> Result<(), Fail> {
    let alloc = rt.alloc();
    for (line, nodes, text) in READ {
        is_read(
            &rt,
            alloc,
            line,
            line.as_bytes(),
            nodes.as_bytes(),
            text.as_bytes(),
        )?;
    }
    is_read(
        &rt,
        alloc,
        "words that are no UTF-8",
        b"{\xff, \xc3}",
        b"{\xff,\xc3}[]",
        b"{\xff,\xc3}",
    )?;
    for line in REFUSED {
        assert!(rt; is_refused(alloc, line.as_bytes()), "{line}");
    }
    for (about, line) in STRAY {
        assert!(rt; is_refused(alloc, line), "{about}");
    }
    Ok(())
}

/// A text so many times.
fn put_times(text: &mut Vec<u8>, piece: &str, times: u32) -> Result<(), AllocError> {
    for _ in 0..times {
        text.extend_from_slice(piece.as_bytes())?;
    }
    Ok(())
}

/// The text that is put together.
fn joined(alloc: Global, built: &Built) -> Result<Vec<u8>, AllocError> {
    let (front, fronts, middle, back, backs) = built;
    let mut text = Vec::new(alloc);
    put_times(&mut text, front, *fronts)?;
    put_times(&mut text, middle, 1)?;
    put_times(&mut text, back, *backs)?;
    Ok(text)
}

#[test]
fn each_bound_is_kept(rt: HostRuntime) -> Result<(), Fail> {
    let alloc = rt.alloc();
    for (built, canonical, count) in WITHIN {
        let about = built.0;
        let line = joined(alloc, built)?;
        let text = joined(alloc, canonical)?;
        let term = term_of(&rt, alloc, about, &line);
        assert_eq!(rt; term.len(), *count, "{about}");
        let nodes = nodes_of(alloc, &term)?;
        is_read(&rt, alloc, about, &line, &nodes, &text)?;
    }
    for built in PAST {
        let line = joined(alloc, built)?;
        assert!(rt; is_refused(alloc, &line), "{}, {}", built.0, built.2);
    }
    Ok(())
}

/// A constant of so many words, each a letter and its number, and of one word more.
fn listed(alloc: Global, count: u32, last: &str) -> Result<Vec<u8>, AllocError> {
    let mut text = Vec::new(alloc);
    text.extend_from_slice(b"{".as_slice())?;
    for i in 0..count {
        text.extend_from_slice(b"w".as_slice())?;
        put_number(&mut text, i)?;
        text.extend_from_slice(b",".as_slice())?;
    }
    text.extend_from_slice(last.as_bytes())?;
    text.extend_from_slice(b"}".as_slice())?;
    Ok(text)
}

#[test]
fn braces_hold_65536_words(rt: HostRuntime) -> Result<(), Fail> {
    let alloc = rt.alloc();
    let most = listed(alloc, 65_535, "a")?;
    let term = term_of(&rt, alloc, "65,536 words", &most);
    assert_eq!(rt; term.len(), 1);
    assert!(rt;
        term_text(alloc, &term)?.as_slice() == most.as_slice(),
        "65,536 words"
    );
    assert!(rt;
        is_refused(alloc, &listed(alloc, 65_536, "a")?),
        "65,537 words"
    );
    assert!(rt;
        is_refused(alloc, &listed(alloc, 65_535, "w0")?),
        "the first word last"
    );
    assert!(rt;
        is_refused(alloc, &listed(alloc, 65_535, "inj")?),
        "the word inj last"
    );
    Ok(())
}
