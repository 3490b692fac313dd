// Handlers of each kind, and how often they were committed.
use crate::holds;
use crate::tables::name_of;
use handlers::{
    CounterHandler, Handler, HandlerKind, LevelHandler, RegisterFault, Registry, TableHandler,
    ValueView,
};
use std::alloc::Global;
use std::process::Abort;

// A rest, a value, and whether it is taken.
type Given = (&'static [u8], &'static [u8], bool);

// A rest, and the value held there.
type Held = (&'static [u8], &'static [u8]);

static TO_TABLE: [Given; 3] = [
    (b"b", b"second", true),
    (b"a", b"first", true),
    (b"b", b"other", true),
];

static OF_TABLE: [Held; 2] = [(b"a", b"first"), (b"b", b"other")];

static TO_COUNTER: [Given; 3] = [
    (b"", &[1, 2, 3, 4], true),
    (b"", &[1, 2, 3], false),
    (b"", &[1, 2, 3, 4, 5], false),
];

static OF_COUNTER: [Held; 1] = [(b"", &[1, 2, 3, 4])];

static TO_LEVEL: [Given; 4] = [
    (b"a", &[100], true),
    (b"a", &[101], false),
    (b"a", &[], false),
    (b"a", &[1, 1], false),
];

static OF_LEVEL: [Held; 1] = [(b"a", &[100])];

// The handler takes these values or not, holds those in order, and counts a commit.
fn serves<H: Handler, R: Abort>(
    rt: &R,
    alloc: Global,
    handler: &mut H,
    kind: HandlerKind,
    given: &[Given],
    held: &[Held],
) {
    for (rest, value, taken) in given {
        let is_taken = handler.set(alloc, rest, ValueView::of(value)).is_ok();
        holds(rt, "taken", is_taken == *taken);
    }
    let mut i = 0usize;
    for (rest, value) in held {
        let exported = handler.export_at(i) == Some((*rest, *value));
        holds(rt, "held", exported & (handler.get(rest) == Some(*value)));
        i = i.wrapping_add(1);
    }
    let end = handler.export_at(i).is_none();
    handler.commit();
    holds(
        rt,
        "end",
        end & (handler.kind() == kind) & (handler.commits() == 1),
    );
}

#[test]
fn kinds(rt: HostRuntime) {
    let alloc = rt.alloc();
    let mut table = TableHandler::new(alloc);
    serves(
        &rt,
        alloc,
        &mut table,
        HandlerKind::Table,
        &TO_TABLE,
        &OF_TABLE,
    );
    let mut counter = CounterHandler::new(alloc);
    serves(
        &rt,
        alloc,
        &mut counter,
        HandlerKind::Counter,
        &TO_COUNTER,
        &OF_COUNTER,
    );
    let mut level = LevelHandler::new(alloc);
    serves(
        &rt,
        alloc,
        &mut level,
        HandlerKind::Level,
        &TO_LEVEL,
        &OF_LEVEL,
    );
}

// Whether the handler at a place holds this value, and was committed so often.
fn is_held(registry: &Registry, place: usize, value: Option<&[u8]>, commits: u64) -> bool {
    match registry.handler(place) {
        Some(handler) => (handler.get(b"x") == value) & (handler.commits() == commits),
        None => false,
    }
}

// A subtree, why no handler is registered for it, and how many there are then.
static SUBTREES: [(&str, Option<RegisterFault>, usize); 4] = [
    ("bt", None, 1),
    ("bt/mesh", None, 2),
    ("lv", None, 3),
    ("bt", Some(RegisterFault::Exists), 3),
];

// A name, and the place of its best handler.
static BEST: [(&str, Option<usize>); 6] = [
    ("bt/mesh/iv", Some(1)),
    ("bt/x", Some(0)),
    ("btx/y", None),
    ("bt", Some(0)),
    ("lv", Some(2)),
    ("lv/a", Some(2)),
];

#[test]
fn registry(rt: HostRuntime) {
    let alloc = rt.alloc();
    let mut registry = Registry::new(alloc);
    for (subtree, fault, count) in SUBTREES.iter() {
        let name = name_of(&rt, subtree);
        let level = Box::new(alloc, LevelHandler::new(alloc)).expect(&rt, "memory");
        let handler: Box<dyn Handler> = level;
        let refused = match registry.register(name, handler) {
            Ok(()) => None,
            Err((fault, _)) => Some(fault),
        };
        holds(
            &rt,
            subtree,
            (refused == *fault) & (registry.len() == *count),
        );
    }
    for (text, place) in BEST.iter() {
        holds(&rt, text, registry.best(&name_of(&rt, text)) == *place);
    }
    assert!(rt; registry.len() == 3);
    let set = registry
        .set_at(alloc, 1, b"x", ValueView::of(&[100]))
        .is_ok();
    registry.commit_at(1);
    let first = is_held(&registry, 0, None, 0);
    holds(
        &rt,
        "committed",
        set & first & is_held(&registry, 1, Some(&[100]), 1),
    );
}
