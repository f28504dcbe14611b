//! Texts of region scripts: each good form of each statement, with items of every number.

use crate::checks::{AMPLE, joined, same};
use crate::texts::{VALUES, written_items};
use gomp_region::{
    Addend, AskedSize, BlockConstruct, EndWord, Script, ScriptLine, Statement, TaskClauses,
    parse_script,
};
use gomp_test_data::{LOOP, SIZES, items_of};
use gomp_types::{CancelKind, CriticalName, Dep, DepKind, Deps, EndKind, LoopDesc, Sched};
use std::alloc::Global;
use std::process::Abort;

/// That a text is this script.
fn is_script(
    rt: &impl Abort,
    alloc: Global,
    text: String,
    (team, lines, ends): (AskedSize, Vec<ScriptLine>, Vec<usize>),
) {
    let found = parse_script(alloc, text.as_bytes());
    let expected = Ok(Script { team, lines, ends });
    same(rt, found, expected, text.as_str(), 0);
    drop(text);
}

/// A line of this number.
fn line_of(number: u64, statement: Statement) -> ScriptLine {
    ScriptLine { number, statement }
}

/// The text of a region with a block of this line, with nothing in it.
fn region_text(rt: &impl Abort, alloc: Global, line: &str, end: &str) -> String {
    joined(rt, alloc, &["region 4\n", line, "\n#\n", end, "\n"])
}

/// That a block whose line has these parts, with nothing in it, is read as this construct.
fn is_block(
    rt: &impl Abort,
    alloc: Global,
    line: &[&str],
    construct: BlockConstruct,
    word: EndWord,
    end: &str,
) {
    let begin = line_of(2, Statement::Begin(construct));
    let lines = vec![in alloc; begin, line_of(4, Statement::End(word))].expect(rt, AMPLE);
    let ends = vec![in alloc; 1, 1].expect(rt, AMPLE);
    let line = joined(rt, alloc, line);
    let text = region_text(rt, alloc, line.as_str(), end);
    drop(line);
    is_script(rt, alloc, text, (AskedSize::Stated(4), lines, ends));
}

/// That the line of this word, with this one behind it, is read as this statement.
fn is_statement(rt: &impl Abort, alloc: Global, (word, end): (&str, &str), statement: Statement) {
    let lines = vec![in alloc; line_of(3, statement)].expect(rt, AMPLE);
    let ends = vec![in alloc; 0].expect(rt, AMPLE);
    let text = joined(rt, alloc, &["\nregion\n", word, end]);
    is_script(rt, alloc, text, (AskedSize::Unstated, lines, ends));
}

const SCHEDULES: &[(&str, Sched)] = &[
    ("static", Sched::Static),
    ("dynamic", Sched::Dynamic),
    ("guided", Sched::Guided),
    ("runtime", Sched::Runtime),
];

const ENDS: &[(&str, EndKind)] = &[
    ("wait", EndKind::Wait),
    ("nowait", EndKind::Nowait),
    ("cancellable", EndKind::Cancellable),
];

const DEPENDS: &[(&str, DepKind)] = &[
    ("in", DepKind::DepIn),
    ("out", DepKind::DepOut),
    ("inout", DepKind::DepInout),
    ("inoutset", DepKind::DepInoutset),
    ("mutexinoutset", DepKind::DepMutex),
];

const CANCELS: &[(&str, CancelKind)] = &[
    ("parallel", CancelKind::Parallel),
    ("loop", CancelKind::Loop),
    ("sections", CancelKind::Sections),
    ("taskgroup", CancelKind::Taskgroup),
];

/// That a loop of these numbers, as they are written, is read.
fn reads_loop(rt: &impl Abort, alloc: Global, line: &[&str], desc: LoopDesc) {
    let construct = BlockConstruct::Loop(desc);
    is_block(rt, alloc, line, construct, EndWord::EndFor, "endfor");
}

/// That loops of this schedule and end, with this number in each place, are read.
fn reads_number_of_loop(
    rt: &impl Abort,
    alloc: Global,
    (kind, sched): (&str, Sched),
    (word, end_kind): (&str, EndKind),
    (number, written): (i64, &str),
) {
    let desc = LoopDesc {
        start: number,
        sched,
        end_kind,
        ..LOOP
    };
    let line = ["for ", kind, " 0 ", written, " 0 1 ", word];
    reads_loop(rt, alloc, &line, desc);
    let desc = LoopDesc {
        start: -7,
        end: number,
        incr: number,
        sched,
        chunk: number,
        ordered: true,
        end_kind,
    };
    let line = [
        "for ", kind, " ", written, " -7 ", written, " ", written, " ", word, " ordered",
    ];
    reads_loop(rt, alloc, &line, desc);
}

/// That a loop of this schedule, with each end and each number in each place, is read.
fn reads_loops(rt: &impl Abort, alloc: Global, schedule: (&str, Sched)) {
    for end in ENDS {
        for number in VALUES {
            reads_number_of_loop(rt, alloc, schedule, *end, *number);
        }
    }
}

/// That each number is read behind `copy` and `add`.
fn reads_numbers(rt: &impl Abort, alloc: Global, number: i64, written: &str) {
    is_block(
        rt,
        alloc,
        &["copy ", written],
        BlockConstruct::Copy(number),
        EndWord::EndCopy,
        "endcopy",
    );
    let statement = Statement::Add(Addend::Number(number));
    is_statement(rt, alloc, ("add ", written), statement);
}

/// That a critical region of this name is read.
fn reads_critical(rt: &impl Abort, alloc: Global, name: &str) {
    let construct = BlockConstruct::Critical(CriticalName::new(name.as_bytes()));
    is_block(
        rt,
        alloc,
        &["critical ", name],
        construct,
        EndWord::EndCritical,
        "endcritical",
    );
}

/// The options of a task, and whether it is undeferred and final by them.
const OPTIONS: &[(&str, bool, bool)] = &[
    ("", false, false),
    (" if0", true, false),
    (" final", false, true),
    (" if0 final", true, true),
];

/// That a task with these options and items is read.
fn is_task(
    rt: &impl Abort,
    alloc: Global,
    (options, undeferred, final_task): (&str, bool, bool),
    items: &str,
    deps: Deps,
) {
    let construct = BlockConstruct::Task(TaskClauses {
        undeferred,
        final_task,
        deps,
    });
    let line = ["task", options, items];
    is_block(rt, alloc, &line, construct, EndWord::EndTask, "endtask");
}

/// That a task with so many items of a kind is read, with each of its options.
fn reads_task(rt: &impl Abort, alloc: Global, (word, kind): (&str, DepKind), count: usize) {
    let items = written_items(rt, alloc, word, count);
    for options in OPTIONS {
        let deps = items_of(alloc, kind, count).expect(rt, AMPLE);
        is_task(rt, alloc, *options, items.as_str(), deps);
    }
    drop(items);
}

/// Puts an item of this kind, on the largest address and on the least, into a list.
fn put_items(rt: &impl Abort, deps: &mut Deps, kind: DepKind) {
    let addr = u64::MAX;
    deps.push(Dep { kind, addr }).expect(rt, AMPLE);
    deps.push(Dep { kind, addr: 0 }).expect(rt, AMPLE);
}

/// The items of all kinds, as they are written.
const ITEMS: &str = " in 18446744073709551615 in 00 out 18446744073709551615 out 00 \
inout 18446744073709551615 inout 00 inoutset 18446744073709551615 inoutset 00 \
mutexinoutset 18446744073709551615 mutexinoutset 00";

/// That a task with items of all kinds is read, in their order.
fn reads_mixed_items(rt: &impl Abort, alloc: Global) {
    let mut deps = Deps::new(alloc);
    for (_, kind) in DEPENDS {
        put_items(rt, &mut deps, *kind);
    }
    is_task(rt, alloc, (" final", false, true), ITEMS, deps);
}

/// That each block whose line has no number, item or name is read.
fn reads_blocks(rt: &impl Abort, alloc: Global) {
    for (word, end_kind) in ENDS {
        is_block(
            rt,
            alloc,
            &["sections ", *word],
            BlockConstruct::Sections(*end_kind),
            EndWord::EndSections,
            "endsections",
        );
    }
    let construct = BlockConstruct::Single;
    is_block(
        rt,
        alloc,
        &["single"],
        construct,
        EndWord::EndSingle,
        "endsingle",
    );
    let construct = BlockConstruct::Ordered;
    is_block(
        rt,
        alloc,
        &["ordered"],
        construct,
        EndWord::EndOrdered,
        "endordered",
    );
    let construct = BlockConstruct::Group;
    is_block(
        rt,
        alloc,
        &["group"],
        construct,
        EndWord::EndGroup,
        "endgroup",
    );
}

/// That a nested region of so many members, as they are written, is read.
fn reads_parallel(rt: &impl Abort, alloc: Global, members: u32, written: &str) {
    let construct = BlockConstruct::Parallel(members);
    let line = ["parallel ", written];
    is_block(
        rt,
        alloc,
        &line,
        construct,
        EndWord::EndParallel,
        "endparallel",
    );
}

/// That a block of one member, as its number is written, is read.
fn reads_only(rt: &impl Abort, alloc: Global, member: u16, written: &str) {
    let construct = BlockConstruct::Only(member);
    let line = ["only ", written];
    is_block(rt, alloc, &line, construct, EndWord::EndOnly, "endonly");
}

/// That each statement that is no block is read.
fn reads_statements(rt: &impl Abort, alloc: Global) {
    is_statement(rt, alloc, ("taskwait", ""), Statement::Taskwait);
    is_statement(rt, alloc, ("barrier", ""), Statement::Barrier);
    is_statement(rt, alloc, ("add it", ""), Statement::Add(Addend::Iteration));
    for (word, kind) in CANCELS {
        is_statement(rt, alloc, ("cancel ", *word), Statement::Cancel(*kind));
        is_statement(rt, alloc, ("point ", *word), Statement::Point(*kind));
    }
}

/// Names of critical regions.
const NAMES: &[&str] = &[
    "",
    "a",
    "%",
    "endcritical",
    "a_name_of_thirty_two_letters_aaa",
    "a_name_of_thirty_three_letters_aa",
];

/// Each good form of each statement with a number, an item or a name is read as what it is.
fn reads_rows(rt: &impl Abort, alloc: Global) {
    for schedule in SCHEDULES {
        reads_loops(rt, alloc, *schedule);
    }
    for (number, written) in VALUES {
        reads_numbers(rt, alloc, *number, *written);
    }
    for name in NAMES {
        reads_critical(rt, alloc, *name);
    }
    for depend in DEPENDS {
        for count in 0..18 {
            reads_task(rt, alloc, *depend, count);
        }
    }
}

/// Each good form of each statement is read as what it is.
#[test]
fn good_scripts(rt: HostRuntime) {
    let alloc = rt.alloc();
    reads_rows(&rt, alloc);
    reads_mixed_items(&rt, alloc);
    reads_blocks(&rt, alloc);
    reads_parallel(&rt, alloc, 1, "1");
    reads_parallel(&rt, alloc, u32::MAX, "4294967295");
    reads_only(&rt, alloc, 0, "0");
    reads_only(&rt, alloc, u16::MAX, "65535");
    reads_statements(&rt, alloc);
}

/// A task of any number of items is read whole.
#[test]
fn tasks_of_every_size(rt: HostRuntime) {
    for count in SIZES {
        reads_task(&rt, rt.alloc(), ("inoutset", DepKind::DepInoutset), *count);
    }
}
