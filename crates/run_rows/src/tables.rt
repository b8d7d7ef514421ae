//! Files and what runs on them give, worked out by hand from the rules of the format.
use copar_run::Status;
use typing::TypeKind;

pub(crate) const FOUR: &[u8] = b"P X\na: {b}\nb: {a}\nc: {}\nd: {c, a}\n";

const UNKNOWN: TypeKind = TypeKind::UnknownState;

const REPEATED: TypeKind = TypeKind::RepeatedState;

/// Files of which the blocks are listed, and the list.
pub(crate) const LISTED: &[(&str, &[u8], &[u8])] = &[
    ("four states", FOUR, b"a a\nb a\nc c\nd d\n"),
    ("a functor line alone", b"P X", b""),
    ("no blank in it", b"PX\n", b""),
    ("blanks, a tab and a return", b" P\tX \r\n", b""),
    (
        "skipped lines before it",
        b"# sets\n\n \t# more\nP X\n",
        b"",
    ),
    ("a return at the end of the file", b"P X\na: {}\r", b"a a\n"),
    (
        "bytes past ASCII",
        b"P X\n\xff\x80: {\xff\x80}\n",
        b"\xff\x80 \xff\x80\n",
    ),
    (
        "a name before its line",
        b"P X\na: {b}\nb: {}\n",
        b"a a\nb b\n",
    ),
    (
        "a member twice",
        b"P X\nx: {y, y, z}\ny: {}\nz: {}\n",
        b"x x\ny y\nz y\n",
    ),
    (
        "blanks anywhere",
        b"P X\n\t a \t:\t{ b\t,  a } \n b:{}\n",
        b"a a\nb b\n",
    ),
    (
        "each sign of a word",
        b"P X\n_'.-/@$!?: {}\n",
        b"_'.-/@$!? _'.-/@$!?\n",
    ),
    ("digits are names", b"P X\n0: {1}\n1: {0}\n", b"0 0\n1 0\n"),
    (
        "injured is a name",
        b"P X\ninjured: {}\n",
        b"injured injured\n",
    ),
    ("distributions, and no state", b"D X\n", b""),
    ("parentheses", b"(P (X))\na: {a}\n", b"a a\n"),
    ("an automaton", AUTOMATON, b"q q\np q\nr r\n"),
    ("a chain that lumps to a point", CHAIN, b"q q\np q\nr q\n"),
    (
        "weights that cancel",
        b"Z^(X)\na: {b: 1, c: -1}\nb: {}\nc: {}\n",
        b"a a\nb a\nc a\n",
    ),
    (
        "weights to states that differ",
        DIFFER,
        b"a a\nb b\nc c\nd d\n",
    ),
    (
        "weights that cancel within classes",
        CANCEL,
        b"a a\nb b\nc b\nd a\n",
    ),
    ("the identity", b"X\na: b\nb: a\n", b"a a\nb a\n"),
    (
        "a constant",
        b"{u,v}\na: u\nb: v\nc: (u)\n",
        b"a a\nb b\nc a\n",
    ),
    (
        "whole numbers",
        b"N x X\na: (007, a)\nb: (7, a)\nc: (8, a)\n",
        b"a a\nb a\nc c\n",
    ),
    (
        "a machine for drinks",
        DRINKS,
        b"idle idle\nready ready\nserved idle\nidle2 idle\nready2 ready\nbroken broken\n",
    ),
];

const AUTOMATON: &[u8] =
    b"{f,n} x X^{a,b}\nq: (n, {a: p, b: r})\np: (n, {a: q, b: r})\nr: (f, {a: q, b: p})\n";

const CHAIN: &[u8] = b"DX\nq: {p: 0.5, r: 0.5}\np: {q: 0.4, r: 0.6}\nr: {r: 1}\n";

const DIFFER: &[u8] = b"2 x Z^(X)\na: (0, {b: 1, c: -1})\nb: (1, {})\nc: (0, {})\n\
    d: (0, {c: 1, a: -1})\n";

const CANCEL: &[u8] = b"2 x Z^(X)\na: (0, {b: 1, c: -1, a: 1, d: -1})\nb: (1, {})\n\
    c: (1, {})\nd: (0, {})\n";

pub(crate) const DRINKS: &[u8] = b"# a drinks machine\r\nP({coin, tea} x D X)\r\n\r\n\
    idle: {(coin, {ready: 9/10, idle: 1/10})}\r\nready: {(tea, {served: 1})}\r\n\
    served: {(coin, {ready2: 0.9, idle2: 0.1})}\r\nidle2: {(coin, {ready: 0.9, served: 0.1})}\r\n\
    ready2: {(tea, {idle: 0.5, idle2: 0.5})}\r\nbroken: {}\r\n";

/// Files without a functor line, and the line that is told.
pub(crate) const WITHOUT_FUNCTOR: &[(&str, &[u8], u32)] = &[
    ("no byte", b"", 1),
    ("a note", b"# nothing\n", 2),
    ("a note without its end", b"# nothing", 1),
    ("blank lines", b"\n\n \t\n", 4),
    ("returns before line feeds", b"\r\n\r\n", 3),
    ("notes behind blanks", b"  # a\n\t# b\r\n", 3),
];

/// Files with a line that is not of its form, and the first such line.
pub(crate) const UNFORMED: &[(&str, &[u8], u32)] = &[
    ("a letter more", b"P X X\n", 1),
    ("a letter too few", b"P\n", 1),
    ("a letter of no functor", b"R^(X)\n", 1),
    ("integers without parentheses", b"Z X\n", 1),
    ("a note behind the functor", b"P X # sets\n", 1),
    ("two returns", b"P X\r\r\n", 1),
    ("a byte order mark", b"\xef\xbb\xbfP X\n", 1),
    ("a label twice", b"{f,n,f} x X\n", 1),
    ("a constant of no label", b"0 x X\n", 1),
    ("an open constant", b"{f,n x X\n", 1),
    ("a plus at the end", b"1 + X +\n", 1),
    ("braces left open", b"P X\na: {b", 2),
    ("the head inj", b"P X\ninj: {}\n", 2),
    ("the member inj", b"P X\na: {inj}\n", 2),
    ("a comma too many", b"P X\na: {a,}\n", 2),
    ("a comma too few", b"P X\na: {a a}\n", 2),
    ("no colon", b"P X\na {}\n", 2),
    ("no head", b"P X\n: {}\n", 2),
    ("a line with a note behind it", b"P X\na: {} # end\n", 2),
    ("a number sign in a head", b"P X\na#: {}\n", 2),
    ("a return inside a line", b"P X\na: {}\rb: {}\n", 2),
    ("a byte 0", b"P X\na\x00: {}\n", 2),
    ("two sets", b"P X\na: {} {}\n", 2),
    ("a plus sign before a weight", b"Q^(X)\na: {a: +1}\n", 2),
    ("two colons", b"D X\na: {a: 1: 2}\n", 2),
    ("an index of letters", b"1 + X\na: inj x a\n", 2),
    ("empty parentheses", b"2 x X\na: ()\n", 2),
    ("a misfit, and later no line", b"P X\na: {zz}\nb: {", 3),
    (
        "a weight over its bound, and later no line",
        b"D X\na: {a: 1/2199023255552}\nb\n",
        3,
    ),
];

/// Files that do not fit, with the line and the kind that are told.
pub(crate) const MISFITS: &[(&str, &[u8], u32, TypeKind)] = &[
    ("a member that is no state", b"P X\na: {zz}\n", 2, UNKNOWN),
    ("the last line without its end", b"P X\na: {b}", 2, UNKNOWN),
    (
        "a line behind a blank",
        b"P X\na: {}\n b: {zz}\n",
        3,
        UNKNOWN,
    ),
    ("a head twice", b"P X\na: {}\na: {}\n", 3, REPEATED),
    (
        "and then a member that is no state",
        b"P X\na: {}\na: {zz}\n",
        3,
        REPEATED,
    ),
    (
        "no state, and later a head twice",
        b"P X\na: {zz}\na: {}\n",
        2,
        UNKNOWN,
    ),
    (
        "a head twice, and later no state",
        b"P X\na: {}\na: {}\nb: {zz}\n",
        3,
        REPEATED,
    ),
    (
        "no state, twice",
        b"P X\na: {a}\nb: {zz}\nc: {zz}\n",
        3,
        UNKNOWN,
    ),
    (
        "among skipped lines",
        b"# c\r\nP X\r\n\r\n# d\r\na: {zz}\r\n",
        5,
        UNKNOWN,
    ),
    (
        "behind skipped lines",
        b"P X\n\n\na: {b}\n  # x\nb: {c}\n",
        6,
        UNKNOWN,
    ),
    ("another case", b"P X\na: {A}\n", 2, UNKNOWN),
    (
        "parentheses for braces",
        b"P X\na: (a)\n",
        2,
        TypeKind::WrongShape,
    ),
    (
        "a weight in a set",
        b"P X\na: {a: 1}\n",
        2,
        TypeKind::WrongShape,
    ),
    (
        "a set in a set of states",
        b"P X\na: {{}}\n",
        2,
        TypeKind::WrongShape,
    ),
    (
        "a distribution without a weight",
        b"D X\na: {zz}\n",
        2,
        TypeKind::WrongShape,
    ),
    (
        "no state, and later a misfit of another kind",
        b"P X\na: {zz}\nb: (a)\n",
        2,
        UNKNOWN,
    ),
    (
        "one part for two",
        b"2 x X\na: (0)\n",
        2,
        TypeKind::WrongShape,
    ),
    (
        "three parts for two",
        b"2 x X\na: (0, a, a)\n",
        2,
        TypeKind::WrongCount,
    ),
    (
        "a number that is no label",
        b"2 x X\na: (2, a)\n",
        2,
        TypeKind::NotALabel,
    ),
    (
        "a word that is no label",
        b"{f,n} x X\na: (g, a)\n",
        2,
        TypeKind::NotALabel,
    ),
    (
        "a label without an entry",
        b"X^2\na: {0: a}\n",
        2,
        TypeKind::MissingKey,
    ),
    (
        "a label with two entries",
        b"X^2\na: {0: a, 0: a, 1: a}\n",
        2,
        TypeKind::RepeatedKey,
    ),
    (
        "an index past the parts",
        b"1 + X\na: inj 2 a\n",
        2,
        TypeKind::BadIndex,
    ),
    (
        "a bag with a negative weight",
        b"B X\na: {a: -1}\n",
        2,
        TypeKind::Negative,
    ),
    (
        "a bag with a negative weight over its bound",
        b"B X\na: {a: -2199023255552}\n",
        2,
        TypeKind::Negative,
    ),
    (
        "a bag with a fraction",
        b"B X\na: {a: 1/2}\n",
        2,
        TypeKind::NotANumber,
    ),
    (
        "whole weights without one",
        b"Z^(X)\na: {a}\n",
        2,
        TypeKind::WrongShape,
    ),
    (
        "a denominator of 0",
        b"Z^(X)\na: {a: 1/0}\n",
        2,
        TypeKind::NotANumber,
    ),
    (
        "a point without a digit before it",
        b"Q^(X)\na: {a: .5}\n",
        2,
        TypeKind::NotANumber,
    ),
    (
        "an exponent",
        b"Q^(X)\na: {a: 1e3}\n",
        2,
        TypeKind::NotANumber,
    ),
    (
        "a sign in a whole number",
        b"N x X\na: (-1, a)\n",
        2,
        TypeKind::NotALabel,
    ),
    (
        "a sum that is short, and later no state",
        b"D X\na: {a: 1/2}\nb: {zz: 1}\n",
        3,
        UNKNOWN,
    ),
    (
        "a weight over its bound, and later no state",
        b"D X\na: {a: 2199023255552}\nb: {zz: 1}\n",
        3,
        UNKNOWN,
    ),
];

/// Files with a number over its bound, and the line that is told.
pub(crate) const PAST_BOUND: &[(&str, &[u8], u32)] = &[
    (
        "a weight one past its bound",
        b"Z^(X)\na: {a: 1099511627777}\n",
        2,
    ),
    (
        "a whole number one past its bound",
        b"N x X\na: (1099511627777, a)\n",
        2,
    ),
    (
        "a common denominator past its bound",
        b"Q^(X)\na: {a: 1/1099511627776}\nb: {b: 1/3}\n",
        3,
    ),
    (
        "a numerator past its bound that would cancel",
        b"Q^(X)\na: {a: 2199023255552/2199023255552}\n",
        2,
    ),
    (
        "a sum that is short, and later a weight over its bound",
        b"D X\na: {a: 1/2}\nb: {b: 2199023255552}\n",
        3,
    ),
    (
        "merged weights printed, and given again",
        b"Z^(X)\na: {b: 2199023255552}\nb: {}\n",
        2,
    ),
];

/// Files with a distribution that does not sum to 1, and the line that is told.
pub(crate) const SHORT: &[(&str, &[u8], u32)] = &[
    ("five sixths", b"D X\na: {a: 1/2, b: 1/3}\nb: {b: 1}\n", 2),
    ("no element", b"D X\na: {}\n", 2),
    (
        "a half twice and a third",
        b"D X\na: {a: 1/2, a: 1/2}\nb: {a: 1/2, b: 1/2, a: 1/3}\n",
        3,
    ),
    (
        "an inner one",
        b"P D X\na: {{a: 1}, {a: 999999999999/1000000000000}}\n",
        2,
    ),
    ("a weight of 0 alone", b"2 x D X\na: (0, {a: 0})\n", 2),
];

/// Files, and what is printed where they are minimised.
pub(crate) const MINIMISED: &[(&str, &[u8], &[u8])] = &[
    ("four states", FOUR, b"P X\na: {a}\nc: {}\nd: {a, c}\n"),
    (
        "a member twice",
        b"P X\nx: {y, y, z}\ny: {}\nz: {}\n",
        b"P X\nx: {y}\ny: {}\n",
    ),
    ("a functor line alone", b"P X", b"P X\n"),
    (
        "blanks and a return",
        b" P\tX \r\na :{ }\r",
        b"P X\na: {}\n",
    ),
    (
        "members in another order",
        b"P X\na: {c, b}\nb: {}\nc: {b}\n",
        b"P X\na: {b, c}\nb: {}\nc: {b}\n",
    ),
    (
        "a ring of three",
        b"P X\na: {b}\nb: {c}\nc: {a}\n",
        b"P X\na: {a}\n",
    ),
    (
        "names that descend",
        b"P X\nz: {}\ny: {z}\nx: {}\nw: {x, z}\n",
        b"P X\nz: {}\ny: {z}\n",
    ),
    (
        "a chain",
        b"P X\n3: {2}\n2: {1}\n1: {0}\n0: {}\n",
        b"P X\n3: {2}\n2: {1}\n1: {0}\n0: {}\n",
    ),
    (
        "bytes past ASCII",
        b"P X\n\xff: {\x80}\n\x80: {\xff}\n",
        b"P X\n\xff: {\xff}\n",
    ),
    (
        "an automaton",
        AUTOMATON,
        b"{f,n} x X^{a,b}\nq: (n, {a: q, b: r})\nr: (f, {a: q, b: q})\n",
    ),
    ("a chain that lumps to a point", CHAIN, b"D X\nq: {q: 1}\n"),
    (
        "weights that cancel",
        b"Z^(X)\na: {b: 1, c: -1}\nb: {}\nc: {}\n",
        b"Z^(X)\na: {}\n",
    ),
    (
        "weights to states that differ",
        DIFFER,
        b"2 x Z^(X)\na: (0, {b: 1, c: -1})\nb: (1, {})\nc: (0, {})\nd: (0, {a: -1, c: 1})\n",
    ),
    (
        "weights that cancel within classes",
        CANCEL,
        b"2 x Z^(X)\na: (0, {})\nb: (1, {})\n",
    ),
    (
        "a set of distributions that become one",
        b"P D X\nx: {{y: 1/2, z: 1/2}, {y: 1}}\ny: {}\nz: {}\n",
        b"P D X\nx: {{y: 1}}\ny: {}\n",
    ),
    ("the identity", b"X\na: b\nb: a\n", b"X\na: a\n"),
    (
        "a weight at its bound",
        b"Z^(X)\na: {a: 1099511627776}\n",
        b"Z^(X)\na: {a: 1099511627776}\n",
    ),
    (
        "a machine for drinks",
        DRINKS,
        b"P ({coin,tea} x D X)\nidle: {(coin, {idle: 1/10, ready: 9/10})}\n\
        ready: {(tea, {idle: 1})}\nbroken: {}\n",
    ),
    (
        "a sum",
        b"1 + {u,v} x X\na: inj 0 0\nb: inj 1 (u, a)\nc: inj 1 (u, d)\nd: (inj 00 (0))\n",
        b"1 + {u,v} x X\na: inj 0 0\nb: inj 1 (u, a)\n",
    ),
    (
        "a bag by its other name",
        b"N^(X)\nx: {y, y, z: 2}\ny: {}\nz: {z: 0}\n",
        b"B X\nx: {y: 4}\ny: {}\n",
    ),
    (
        "fractions in lowest terms",
        b"Q^(X)\na: {a: 2/4, b: -0.5, c: 007/014}\nb: {a: 3}\nc: {c: 3}\n",
        b"Q^(X)\na: {a: 1/2, b: -1/2, c: 1/2}\nb: {a: 3}\nc: {c: 3}\n",
    ),
    (
        "sums in a product",
        b"(X + 2) x (1 + X)\na: (inj 0 b, inj 0 0)\nb: (inj 1 1, inj 1 a)\n",
        b"(X + 2) x (1 + X)\na: (inj 0 b, inj 0 0)\nb: (inj 1 1, inj 1 a)\n",
    ),
    (
        "powers of powers",
        b"(P X)^2^{l,r}\na: {r: {1: {a}, 0: {}}, l: {0: {b, a}, 1: {b}}}\n\
        b: {l: {0: {a}, 1: {a}}, r: {0: {}, 1: {b}}}\n",
        b"P X^2^{l,r}\na: {l: {0: {a}, 1: {a}}, r: {0: {}, 1: {a}}}\n",
    ),
];

/// A file of which the quotient's text is no file within the bounds.
pub(crate) const MERGED: (&[u8], &[u8]) = (
    b"Z^(X)\na: {b: 1099511627776, c: 1099511627776}\nb: {}\nc: {}\n",
    b"Z^(X)\na: {b: 2199023255552}\nb: {}\n",
);

/// Words that are taken, and how the run on them ends. No file has the names `-` and `--stats`.
pub(crate) const TAKEN: &[(&[&str], Status)] = &[
    (&["blocks", "F"], Status::Done),
    (&["minimise", "F"], Status::Done),
    (&["blocks", "--", "F"], Status::Done),
    (&["--", "blocks", "F"], Status::Done),
    (&["minimise", "--", "-x"], Status::Done),
    (&["blocks", "G"], Status::ReadFault),
    (&["blocks", "-"], Status::ReadFault),
    (&["--", "blocks", "--stats"], Status::ReadFault),
    (&["blocks", "--", "--"], Status::ReadFault),
    (&["blocks", "F", "--stats"], Status::Done),
    (&["--stats", "blocks", "F"], Status::Done),
    (&["blocks", "--stats", "F"], Status::Done),
    (&["minimise", "F", "--stats"], Status::Done),
    (&["explain", "F", "a", "b"], Status::Done),
    (&["explain", "F", "a", "--stats", "b"], Status::Done),
    (
        &["explain", "F", "--", "a", "--stats"],
        Status::UnknownState { place: 1 },
    ),
    (
        &["explain", "F", "--", "-a", "a"],
        Status::UnknownState { place: 0 },
    ),
    (&["certify", "F"], Status::Done),
    (&["certify", "F", "--stats"], Status::Done),
    (&["check", "F", "G", "a"], Status::ReadFault),
    (&["check", "F", "F", "a"], Status::AnswerText { line: 1 }),
    (&["verify", "F", "G"], Status::ReadFault),
    (&["verify", "F", "--", "-x"], Status::AnswerText { line: 1 }),
    (&["trial", "dfa", "0", "1"], Status::Done),
    (&["trial", "lts", "007", "0200"], Status::Done),
    (
        &["trial", "chain", "18446744073709551615", "1"],
        Status::Done,
    ),
    (&["trial", "--", "sums", "1", "2"], Status::Done),
];

/// Words that ask for nothing that the program does.
pub(crate) const REFUSED: &[&[&str]] = &[
    &[],
    &[""],
    &["blocks"],
    &["minimise"],
    &["blocks", ""],
    &["", "F"],
    &["blocks", "F", ""],
    &["blocks", "F", "a"],
    &["minimise", "F", "a"],
    &["frobnicate", "F"],
    &["Blocks", "F"],
    &["F", "blocks"],
    &["blocks", "F", "--stats", "--stats"],
    &["blocks", "F", "--stats=1"],
    &["blocks", "F", "--stat"],
    &["blocks", "-x"],
    &["blocks", "F", "-x"],
    &["explain", "F"],
    &["explain", "F", "a"],
    &["check", "F", "G"],
    &["explain", "F", "a", "b", "c"],
    &["explain", "F", "a", ""],
    &["certify", "F", "a"],
    &["check", "F"],
    &["check", "F", "G", "a", "--stats"],
    &["verify", "F"],
    &["verify", "F", "G", "H"],
    &["verify", "--stats", "F", "G"],
    &["trial"],
    &["trial", "dfa"],
    &["trial", "dfa", "1"],
    &["trial", "dfa", "1", "2", "3"],
    &["trial", "dfa", "1", "0"],
    &["trial", "dfa", "1", "200001"],
    &["trial", "dfa", "18446744073709551616", "1"],
    &["trial", "dfa", "+1", "1"],
    &["trial", "dfa", "1", "+1"],
    &["trial", "dfa", "1", "1.0"],
    &["trial", "dfa", "1", " 1"],
    &["trial", "dfa", "0x1", "1"],
    &["trial", "DFA", "1", "1"],
    &["trial", "dfa", "1", "1", "--stats"],
    &["trial", "dfa", "1", "-1"],
    &["trial", "dfa", "1", "--", "-1"],
    &["trial", "", "1", "1"],
    &["compare", "F", "G", "a", "b"],
    &["help"],
    &["help", "F"],
    &["--"],
    &["--", "blocks"],
    &["blocks", "--"],
    &["blocks", "--", "F", "G"],
];

/// Words, and how what is said of them begins.
pub(crate) const COMPLAINTS: &[(&[&str], &[u8])] = &[
    (
        &["frobnicate", "F"],
        b"copar: no such command: frobnicate\nusage: copar ",
    ),
    (
        &["blocks", "F", "a"],
        b"copar: the command blocks takes one file and no further word\n",
    ),
    (
        &["verify", "F", "G", "--stats"],
        b"copar: the command verify takes no --stats\n",
    ),
    (
        &["verify", "F"],
        b"copar: the command verify takes two files\n",
    ),
    (
        &["explain", "F", "a"],
        b"copar: the command explain takes a file and pairs of states\n",
    ),
    (
        &["check", "F", "G"],
        b"copar: the command check takes two files and at least one state\n",
    ),
    (
        &["trial", "dfa", "1"],
        b"copar: the command trial takes a kind, a seed and a size\n",
    ),
    (
        &["trial", "dfa", "1", "1", "--stats"],
        b"copar: the command trial takes no --stats\n",
    ),
    (
        &["trial", "nfa", "1", "1"],
        b"copar: a trial has a kind (lts, chain, sums or dfa), a seed below 2^64 and a size \
        from 1 to 200000\n",
    ),
    (&["--version"], b"copar 0.1.0\n"),
    (&["-V"], b"copar 0.1.0\n"),
    (
        &["--help"],
        b"Minimise systems of finite states, tell why two states differ, and check\n",
    ),
    (
        &["-h"],
        b"Minimise systems of finite states, tell why two states differ, and check\n",
    ),
    (
        &["blocks", "F", "--help"],
        b"Minimise systems of finite states, tell why two states differ, and check\n",
    ),
    (
        &["blocks", ""],
        b"copar: an empty word names no file and no state\n",
    ),
    (
        &["blocks"],
        b"error: the following required arguments were not provided:\n  <FILE>\n",
    ),
    (
        &["blocks", "F", "--stat"],
        b"error: unexpected argument '--stat' found\n",
    ),
];
