// Lines of scripts as they are read, and answers by themselves.
ghost use Rattle.std.specs.Prelude.{IfOk};
ghost use Rattle.script_lines.specs.Answer.{CanReport};

use crate::holds;
use handlers::HandlerKind;
use item_session::{Answer as ItemAnswer, Ids, Line as ItemLine};
use script_lines::{
    Answer, Bytes, Line, LineFault, LineWhy, Pair, Pairs, SaveEnd, ScriptFault, answer_text,
    gen_script, is_lost, read_label, read_script, units_of,
};
use setting_name::Name;
use std::alloc::{AllocError, Global};
use std::process::Abort;
use std::test::Fail;

// A line's word, its name or subtree, its value, and its number.
type Parts<'a> = (&'a str, &'a [u8], &'a [u8], u64);

fn name_of(subtree: &Option<Name>) -> &[u8] {
    match subtree {
        Some(name) => name.bytes(),
        None => b"",
    }
}

fn parts(line: &Line) -> Parts<'_> {
    match line {
        Line::Set { name, value } => ("set", name.bytes(), value.as_slice(), 0),
        Line::RunSet { name, value } => ("rset", name.bytes(), value.as_slice(), 0),
        Line::Get { name } => ("get", name.bytes(), b"", 0),
        Line::Del { name } => ("del", name.bytes(), b"", 0),
        Line::RunGet { name } => ("rget", name.bytes(), b"", 0),
        Line::Load { subtree } => ("load", name_of(subtree), b"", 0),
        Line::Direct { subtree } => ("direct", name_of(subtree), b"", 0),
        Line::Save { subtree } => ("save", name_of(subtree), b"", 0),
        Line::Register { subtree, kind } => match kind {
            HandlerKind::Table => ("table", subtree.bytes(), b"", 0),
            HandlerKind::Counter => ("counter", subtree.bytes(), b"", 0),
            HandlerKind::Level => ("level", subtree.bytes(), b"", 0),
        },
        Line::Cut { units } => ("cut", b"", b"", *units),
        Line::Commit => ("commit", b"", b"", 0),
        Line::Names => ("names", b"", b"", 0),
        Line::Mount => ("mount", b"", b"", 0),
        Line::Uncut => ("uncut", b"", b"", 0),
        Line::Migrate => ("migrate", b"", b"", 0),
    }
}

const FORMS: &[u8] = b"set a 0aFf\nset a -\nget a/b\n#\n\ndel c\ncut 0\ncut 4294967295\nuncut\n\
    mount\nregister a table\nregister b counter\nregister c level\ncommit\nnames\nmigrate\n\
    load\nload a\ndirect\ndirect a/b\nsave\nsave a\nrset a 010203\nrget 1/2/3/4/5/6/7/8\n";

static LINES: [Parts<'static>; 22] = [
    ("set", b"a", b"\x0A\xFF", 0),
    ("set", b"a", b"", 0),
    ("get", b"a/b", b"", 0),
    ("del", b"c", b"", 0),
    ("cut", b"", b"", 0),
    ("cut", b"", b"", 4_294_967_295),
    ("uncut", b"", b"", 0),
    ("mount", b"", b"", 0),
    ("table", b"a", b"", 0),
    ("counter", b"b", b"", 0),
    ("level", b"c", b"", 0),
    ("commit", b"", b"", 0),
    ("names", b"", b"", 0),
    ("migrate", b"", b"", 0),
    ("load", b"", b"", 0),
    ("load", b"a", b"", 0),
    ("direct", b"", b"", 0),
    ("direct", b"a/b", b"", 0),
    ("save", b"", b"", 0),
    ("save", b"a", b"", 0),
    ("rset", b"a", b"\x01\x02\x03", 0),
    ("rget", b"1/2/3/4/5/6/7/8", b"", 0),
];

// The word, the name, and the first byte and the length of the value of each generated line.
static GENERATED: [(&str, &[u8], Option<u8>, usize); 12] = [
    ("set", b"app/k27", Some(1), 32),
    ("set", b"app/k1", Some(2), 21),
    ("get", b"app/k13", None, 0),
    ("set", b"app/k30", Some(4), 17),
    ("get", b"app/k1", None, 0),
    ("del", b"app/k15", None, 0),
    ("set", b"app/k20", Some(7), 4),
    ("set", b"app/k33", Some(8), 6),
    ("set", b"app/k11", Some(9), 4),
    ("set", b"app/k36", Some(10), 13),
    ("set", b"app/k18", Some(11), 15),
    ("set", b"app/k29", Some(12), 16),
];

// Lines with values of more than three bytes, and the fault of line 1.
static REFUSED: [(&str, LineWhy); 4] = [
    ("set a 01020304", LineWhy::Long),
    ("rset a 01020304", LineWhy::Long),
    ("set a 0102030", LineWhy::Hex),
    ("set a=b 01020304", LineWhy::Name),
];

#[test]
fn lines(rt: HostRuntime) {
    let lines = read_script(rt.alloc(), FORMS, 3).expect(&rt, "lines");
    holds(&rt, "lines", lines.len() == LINES.len());
    for (line, expected) in lines.iter().zip(LINES.iter()) {
        holds(&rt, expected.0, parts(line) == *expected);
    }
    let lines = gen_script(rt.alloc(), 12).expect(&rt, "lines");
    holds(&rt, "generated", lines.len() == GENERATED.len());
    for (line, expected) in lines.iter().zip(GENERATED.iter()) {
        let (word, name, value, _) = parts(line);
        let found = (word, name, value.first().copied(), value.len());
        holds(&rt, expected.0, found == *expected);
    }
    for (text, why) in REFUSED.iter() {
        let fault = read_script(rt.alloc(), text.as_bytes(), 3).err();
        let (line, why) = (1, *why);
        holds(&rt, text, fault == Some(ScriptFault::BadLine { line, why }));
    }
}

// A word, and whether it is a label.
static LABELS: [(&[u8], bool); 7] = [
    (b"main", true),
    (b"abcdefg9", true),
    (b"0", true),
    (b"", false),
    (b"abcdefghi", false),
    (b"Main", false),
    (b"a-", false),
];

#[test]
fn labels(rt: HostRuntime) {
    for (word, lawful) in LABELS.iter() {
        let is_read = match read_label(rt.alloc(), word) {
            Ok(label) => *lawful & (label.as_slice() == *word),
            Err(fault) => !*lawful & (fault == LineFault::Refused(LineWhy::Name)),
        };
        holds(&rt, "a label", is_read);
    }
}

// A line of a script of items: its word, its numbers, and its value.
fn item_parts(line: &ItemLine) -> (&str, u64, u64, &[u8]) {
    match line {
        ItemLine::Set { id, value } => ("set", u64::from(*id), 0, value.as_slice()),
        ItemLine::Get { id } => ("get", u64::from(*id), 0, b""),
        ItemLine::Delete { id } => ("del", u64::from(*id), 0, b""),
        ItemLine::Older { id, n } => ("older", u64::from(*id), u64::from(*n), b""),
        ItemLine::Space => ("space", 0, 0, b""),
        ItemLine::Cut { units } => ("cut", *units, 0, b""),
        ItemLine::Uncut => ("uncut", 0, 0, b""),
        ItemLine::Mount => ("mount", 0, 0, b""),
    }
}

const ITEM_FORMS: &[u8] =
    b"set 1 0aFf\nget 65534\n#\n\ndel 3\nolder 4294967294 4294967295\nspace\ncut 4294967295\nuncut\nmount";

static ITEM_LINES: [(&str, u64, u64, &[u8]); 8] = [
    ("set", 1, 0, b"\x0A\xFF"),
    ("get", 65534, 0, b""),
    ("del", 3, 0, b""),
    ("older", 4_294_967_294, 4_294_967_295, b""),
    ("space", 0, 0, b""),
    ("cut", 4_294_967_295, 0, b""),
    ("uncut", 0, 0, b""),
    ("mount", 0, 0, b""),
];

#[test]
fn item_lines(rt: HostRuntime) {
    let lines = item_session::read_script(rt.alloc(), ITEM_FORMS, Ids::Long, 2).expect(
        &rt, "lines",
    );
    holds(&rt, "lines", lines.len() == ITEM_LINES.len());
    for (line, expected) in lines.iter().zip(ITEM_LINES.iter()) {
        holds(&rt, expected.0, item_parts(line) == *expected);
    }
    for (text, why) in [
        (b"set x 001122".as_slice(), item_session::LineWhy::Long),
        (b"set x 0011", item_session::LineWhy::Number),
    ]
    .iter()
    {
        let fault = item_session::read_script(rt.alloc(), text, Ids::Short, 2).err();
        let (line, why) = (1, *why);
        let bad = item_session::ScriptFault::BadLine { line, why };
        holds(&rt, "refused", fault == Some(bad));
    }
}

// The text of an answer, its units, and whether it is a loss.
fn reports<R: Abort>(rt: &R, alloc: Global, answer: ItemAnswer, says: (&str, u64, bool)) {
    let text = item_session::answer_text(alloc, &answer).expect(rt, "memory");
    let same = text.as_slice() == says.0.as_bytes();
    let units = item_session::units_of(&answer);
    let lost = item_session::is_lost(&answer);
    holds(rt, says.0, same & ((units, lost) == (says.1, says.2)));
}

#[test]
fn item_answers(rt: HostRuntime) {
    let alloc = rt.alloc();
    let bytes = Vec::from_slice(alloc, b"\x0A\xFF").expect(&rt, "memory");
    let value = item_session::Bytes::from_vec(bytes);
    let (live, stale, free) = (12, 0, 468);
    let (units, need) = (71, 264);
    let no_space = ItemAnswer::NoSpace { units, need, live };
    reports(
        &rt,
        alloc,
        ItemAnswer::Done { units: 3 },
        ("ok 3\n", 3, false),
    );
    reports(
        &rt,
        alloc,
        ItemAnswer::Value { value },
        ("value 0aff\n", 0, false),
    );
    reports(&rt, alloc, ItemAnswer::Absent, ("none\n", 0, false));
    reports(&rt, alloc, ItemAnswer::Deleted, ("deleted\n", 0, false));
    reports(&rt, alloc, ItemAnswer::Gone, ("gone\n", 0, false));
    let space = ItemAnswer::Space { live, stale, free };
    reports(&rt, alloc, space, ("space 12 0 468\n", 0, false));
    reports(&rt, alloc, no_space, ("nospace 71\n", 71, false));
    reports(
        &rt,
        alloc,
        ItemAnswer::Lost { units: 66 },
        ("lost 66\n", 66, true),
    );
    reports(&rt, alloc, ItemAnswer::Off, ("off\n", 0, false));
}

fn bytes_of(alloc: Global, items: &[u8]) -> Result<Bytes, AllocError> {
    Ok(Bytes::from_vec(Vec::from_slice(alloc, items)?))
}

// The names of an area with one setting.
fn names(alloc: Global, name: &[u8]) -> Result<Answer, Fail>
    ensures { IfOk result CanReport }
{
    let Ok(active) = read_label(alloc, b"main") else {
        return Err(Fail::new("main"));
    };
    let value = bytes_of(alloc, b"\xAB")?;
    let name = Name::read(name)?;
    let mut pairs = Pairs::new(alloc);
    let Ok(()) = pairs.push(Pair { name, value }) else {
        return Err(Fail::new("pairs"));
    };
    Ok(Answer::Names { active, pairs })
}

fn says<R: Abort>(rt: &R, alloc: Global, answer: Answer, expected: &str)
    requires { CanReport answer }
{
    let text = answer_text(alloc, &answer).expect(rt, "memory");
    holds(rt, expected, text.as_slice() == expected.as_bytes());
}

#[test]
fn answers(rt: HostRuntime) -> Result<(), Fail> {
    let alloc = rt.alloc();
    let named = names(alloc, b"a\"b/c\\d")?;
    let text = "{\"active\":\"main\",\"names\":{\"a\\\"b/c\\\\d\":\"ab\"}}\n";
    says(&rt, alloc, named, text);
    let (pairs, units) = (2, 7);
    let end = SaveEnd::NoSpace { need: 1, live: 2 };
    says(
        &rt,
        alloc,
        Answer::Saved { pairs, units, end },
        "saved 2 nospace 7\n",
    );
    let end = SaveEnd::TooMany;
    says(
        &rt,
        alloc,
        Answer::Saved { pairs, units, end },
        "saved 2 toomany 7\n",
    );
    says(&rt, alloc, Answer::TooMany { units: 3 }, "toomany 3\n");
    let (units, chance) = (66, true);
    let lost = Answer::Lost { units, chance };
    let absent = Answer::Absent;
    holds(&rt, "lost", (units_of(&lost) == 66) & is_lost(&lost));
    holds(&rt, "absent", (units_of(&absent) == 0) & !is_lost(&absent));
    Ok(())
}
