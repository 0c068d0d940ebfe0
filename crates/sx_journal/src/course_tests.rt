// How clients work through their lines, by answers given beforehand.
use crate::{Command, Commands, Course, Entry, Event, Reply, Request, What};
use std::alloc::Global;
use std::process::Abort;
use std::test::Fail;
use sx_values::{Key, Name};

// Puts a line at the end, and counts its place.
fn put(commands: &mut Commands, what: What) -> Result<(), Fail> {
    let line = commands.len().wrapping_add(1);
    commands.push(Command { line, what })?;
    Ok(())
}

fn read(alloc: Global) -> Result<What, Fail> {
    let table = Name::new(alloc, b"t")?;
    let key = Key::new(alloc);
    Ok(What::Ask(Request::Read { table, key }))
}

// A transaction that reads, and a second one without requests.
fn two_transactions(alloc: Global) -> Result<Commands, Fail> {
    let mut commands = Commands::new(alloc);
    put(&mut commands, What::Ask(Request::Begin))?;
    put(&mut commands, read(alloc)?)?;
    put(&mut commands, What::Ask(Request::Commit))?;
    put(&mut commands, What::Ask(Request::Begin))?;
    put(&mut commands, What::Abort)?;
    Ok(commands)
}

// What a client asks next, in a word.
#[derive(Clone, Copy, Debug, PartialEq, Eq)]
enum Word {
    Begin,
    Read,
    Commit,
    Undo,
    Other,
    Nothing,
}

fn word_of(asked: &Option<Request>) -> Word {
    match asked {
        Some(Request::Begin) => Word::Begin,
        Some(Request::Read { .. }) => Word::Read,
        Some(Request::Commit) => Word::Commit,
        Some(Request::Undo) => Word::Undo,
        Some(_) => Word::Other,
        None => Word::Nothing,
    }
}

// The client asks this next, of this line, and gets this answer.
fn goes_on(
    rt: &impl Abort,
    alloc: Global,
    course: &mut Course,
    word: Word,
    line: u64,
    reply: Reply,
) -> Result<(), Fail> {
    assert_eq!(rt; course.line(), line);
    let next = course.next(alloc)?;
    assert_eq!(rt; word_of(&next), word);
    let Some(asked) = next else {
        return Err(Fail::new("nothing is asked"));
    };
    course.note(&Entry {
        actor: 1,
        event: Event::Client(asked),
        reply,
    });
    Ok(())
}

// The client asks nothing more.
fn has_ended(rt: &impl Abort, alloc: Global, course: &Course) -> Result<(), Fail> {
    assert_eq!(rt; course.line(), 0);
    assert_eq!(rt; word_of(&course.next(alloc)?), Word::Nothing);
    Ok(())
}

// The answers that make a client give its read up, with one repeat.
fn gives_up(rt: &impl Abort, alloc: Global, course: &mut Course) -> Result<(), Fail> {
    goes_on(rt, alloc, course, Word::Begin, 1, Reply::Begun { txn: 1 })?;
    goes_on(rt, alloc, course, Word::Read, 2, Reply::Held { by: 2 })?;
    goes_on(rt, alloc, course, Word::Read, 2, Reply::Draining)?;
    goes_on(rt, alloc, course, Word::Undo, 2, Reply::Undone { lsn: 7 })?;
    goes_on(rt, alloc, course, Word::Undo, 2, Reply::Aborted { lsn: 8 })
}

#[test]
fn a_held_request_is_repeated_and_given_up(rt: HostRuntime) -> Result<(), Fail> {
    let alloc = rt.alloc();
    let mut course = Course::new(two_transactions(alloc)?, 1);
    gives_up(&rt, alloc, &mut course)?;
    goes_on(
        &rt,
        alloc,
        &mut course,
        Word::Begin,
        4,
        Reply::Begun { txn: 3 },
    )
}

// The second transaction is aborted without a write.
fn aborts(rt: &impl Abort, alloc: Global, course: &mut Course) -> Result<(), Fail> {
    goes_on(rt, alloc, course, Word::Begin, 4, Reply::Begun { txn: 3 })?;
    goes_on(rt, alloc, course, Word::Undo, 5, Reply::Undone { lsn: 9 })?;
    goes_on(rt, alloc, course, Word::Undo, 5, Reply::Aborted { lsn: 10 })?;
    has_ended(rt, alloc, course)
}

// The first one is given up at its commit.
fn is_doomed(rt: &impl Abort, alloc: Global, course: &mut Course) -> Result<(), Fail> {
    goes_on(rt, alloc, course, Word::Begin, 1, Reply::Begun { txn: 1 })?;
    goes_on(rt, alloc, course, Word::Read, 2, Reply::Absent)?;
    goes_on(rt, alloc, course, Word::Commit, 3, Reply::Doomed)?;
    goes_on(rt, alloc, course, Word::Undo, 3, Reply::Aborted { lsn: 7 })
}

#[test]
fn a_doomed_commit_is_given_up(rt: HostRuntime) -> Result<(), Fail> {
    let alloc = rt.alloc();
    let mut course = Course::new(two_transactions(alloc)?, 8);
    is_doomed(&rt, alloc, &mut course)?;
    aborts(&rt, alloc, &mut course)
}

// A read without an end, and an abort without a transaction before it.
fn without_end(alloc: Global) -> Result<Commands, Fail> {
    let mut commands = Commands::new(alloc);
    put(&mut commands, What::Abort)?;
    put(&mut commands, What::Ask(Request::Begin))?;
    put(&mut commands, read(alloc)?)?;
    put(&mut commands, read(alloc)?)?;
    Ok(commands)
}

#[test]
fn all_further_lines_are_passed_over(rt: HostRuntime) -> Result<(), Fail> {
    let alloc = rt.alloc();
    let mut course = Course::new(without_end(alloc)?, 0);
    goes_on(&rt, alloc, &mut course, Word::Undo, 1, Reply::NoTxn)?;
    goes_on(
        &rt,
        alloc,
        &mut course,
        Word::Begin,
        2,
        Reply::Begun { txn: 1 },
    )?;
    goes_on(
        &rt,
        alloc,
        &mut course,
        Word::Read,
        3,
        Reply::Held { by: 2 },
    )?;
    goes_on(
        &rt,
        alloc,
        &mut course,
        Word::Undo,
        3,
        Reply::Aborted { lsn: 4 },
    )?;
    has_ended(&rt, alloc, &course)
}
