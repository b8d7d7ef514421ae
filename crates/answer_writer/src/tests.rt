//! What no clause says: that texts come out as worked by hand, with ample memory.
use super::*;
use file_cut::{CutFault, cut_line};
use formula_text::read_answers;
use std::alloc::Global;
use std::test::Fail;
use trial_texts::TrialKind;
use typing::Names;

/// Three states with names.
fn three_names(alloc: Global) -> Result<Names<'static>, CutFault> {
    let mut names = Names::new(alloc);
    for line in [b"a: a".as_slice(), b"b-2: a".as_slice(), b"c: a".as_slice()] {
        let (head, _) = cut_line(alloc, line)?;
        if names.len() < 3 {
            names.add(head)?;
        }
    }
    Ok(names)
}

#[test]
fn each_pair_has_a_line(rt: HostRuntime) -> Result<(), Fail> {
    let alloc = rt.alloc();
    let names = three_names(alloc).expect(&rt, "three names");
    let read = read_answers(alloc, b"f0 = true\nf1 = not f0\n").expect(&rt, "two formulas");
    assert!(rt; names.len() == 3);
    let text = explanation_text(
        alloc,
        &names,
        &read.dag,
        &[(0, 1), (2, 0)],
        &[None, Some(1)],
    )?;
    let wanted = b"f0 = true\nf1 = not f0\nequivalent a b-2\nseparates c a f1\n";
    assert_eq!(rt; text.as_slice(), wanted.as_slice());
    Ok(())
}

#[test]
fn each_block_has_a_line(rt: HostRuntime) -> Result<(), Fail> {
    let alloc = rt.alloc();
    let names = three_names(alloc).expect(&rt, "three names");
    let read = read_answers(alloc, b"f0 = true\nf1 = not f0\n").expect(&rt, "two formulas");
    assert!(rt; names.len() == 3);
    let blocks = [vec![in alloc; 0, 2]?, vec![in alloc; 1]?];
    let text = certificate_text(alloc, &names, &read.dag, &[1, 0], &blocks)?;
    let wanted = b"f0 = true\nf1 = not f0\nblock f1 a c\nblock f0 b-2\n";
    assert_eq!(rt; text.as_slice(), wanted.as_slice());
    Ok(())
}

#[test]
fn statistics_are_one_comment(rt: HostRuntime) -> Result<(), Fail> {
    let line = stats_line(rt.alloc(), 4, 17, 4294967296)?;
    let wanted = b"# sorted 4 places 17 labels 4294967296\n";
    assert_eq!(rt; line.as_slice(), wanted.as_slice());
    Ok(())
}

#[test]
fn a_summary_has_six_lines(rt: HostRuntime) -> Result<(), Fail> {
    let rows: [(TrialKind, &[u32], &[u8]); 2] = [
        (
            TrialKind::Dfa,
            &[0, 0, 2],
            b"kind dfa\nstates 3\nblocks 2\nsorted 9\nplaces 12\nlabels 4294967296\n",
        ),
        (
            TrialKind::Lts,
            &[],
            b"kind lts\nstates 0\nblocks 0\nsorted 9\nplaces 12\nlabels 4294967296\n",
        ),
    ];
    for (kind, firsts, wanted) in rows {
        let text = trial_summary(rt.alloc(), kind, firsts, 9, 12, 4294967296)?;
        assert_eq!(rt; text.as_slice(), wanted);
    }
    Ok(())
}
