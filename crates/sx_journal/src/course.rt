// How a client works through its lines.
ghost use Rattle.std.specs.Prelude.{◌≡◌, ◌≤◌, ◌<◌, [], length, drop, position, IfOk, IfSome};
ghost use Rattle.sx_journal.specs.declared.course.Command.{Command as TheCommand};
ghost use Rattle.sx_journal.specs.declared.course.Standing.TheVariants.{AtLine as line_here};
ghost use Rattle.sx_journal.specs.Courses.{IsNext, after_abort, after_ask, after_undo, after_what, ends_abort, ends_transaction, index_of, is_aborted, is_commit, is_doomed, is_held, line_at, next_at, passed_over, request_of, standing_after};

use crate::{Entry, Reply, Request, What};
use std::alloc::{AllocError, Global};
use std::marker::Model;
use sx_lists::{Copied, List};

/// A client's line, by its place in the script's text, counted from 1.
#[derive(Debug, Drop)]
pub struct Command {
    pub line: u64,
    pub what: What,
}

/// A client's lines, in order.
pub type Commands = List<Command>;

/// Where a client stands: at a line, counted from 0, whose request was held so often in a row, or undoing, since it gave
/// a line up.
#[derive(Clone, Copy, Debug, PartialEq, Eq)]
pub enum Standing {
    AtLine { index: usize, held: u8 },
    GaveUp { index: usize },
}

/// How far a client has come with its lines, by the answers to its own requests.
#[derive(Debug, Drop)]
pub struct Course {
    commands: Commands,
    retries: u8,
    standing: Standing,
}

impl Model for Course {
    ghost use Rattle.std.specs.Prelude.{◌≤◌, length};
    ghost use Rattle.sx_journal.specs.Courses.{Progress, index_of};

    ghost Value = { Progress };

    ghost view = { λ c. record { commands = c.commands; retries = c.retries; standing = c.standing } };

    ghost invariant = { λ c. index_of c.standing ≤ length c.commands };
}

impl Course {
    /// Before the first of these lines. A request that is held is repeated at most `retries` times.
    pub fn new(lines: Commands, retries: u8) -> Course
        ensures { result ≡ record { commands = lines; retries = retries; standing = line_here 0 0 } }
    {
        Course {
            commands: lines,
            retries,
            standing: Standing::AtLine { index: 0, held: 0 },
        }
    }

    /// Goes on by an entry of the client, which has its next request.
    pub fn note(&mut self, entry: &Entry)
        requires { IsNext self.old entry.now.event }
        ensures commands { self.new.commands ≡ self.old.commands }
        ensures retries { self.new.retries ≡ self.old.retries }
        ensures standing { self.new.standing ≡ standing_after self.old.commands self.old.retries self.old.standing entry.now.reply }
    {
        self.standing = match self.standing {
            Standing::AtLine { index, held } => {
                let what = &self.commands.as_slice()[index].what;
                after_what(what, self.retries, index, held, &entry.reply)
            }
            Standing::GaveUp { index } => {
                after_undo(self.commands.as_slice(), index, &entry.reply)
            }
        };
    }

    /// The client's next request; None exactly where its lines are worked through.
    pub fn next(&self, alloc: Global) -> Result<Option<Request>, AllocError>
        ensures { IfOk result (λ next. next ≡ next_at self.now.commands self.now.standing) }
    {
        match self.standing {
            Standing::AtLine { index, held: _ } => match self.commands.as_slice().get(index) {
                Some(command) => Ok(Some(request_of(alloc, &command.what)?)),
                None => Ok(None),
            },
            Standing::GaveUp { index: _ } => Ok(Some(Request::Undo)),
        }
    }

    /// The index of the line where the client stands, or which it gave up, counted from 0.
    pub fn index(&self) -> usize
        ensures { result ≡ index_of self.now.standing }
    {
        let (Standing::AtLine { index, .. } | Standing::GaveUp { index }) = self.standing;
        index
    }

    /// The line of the next request, by its place in the script's text, or the line that was given up; 0 exactly where
    /// the lines are worked through.
    pub fn line(&self) -> u64
        ensures { result ≡ line_at self.now.commands self.now.standing }
    {
        let (Standing::AtLine { index, .. } | Standing::GaveUp { index }) = self.standing;
        match self.commands.as_slice().get(index) {
            Some(command) => command.line,
            None => 0,
        }
    }
}

impl Copied for Command {
    fn copy(&self, alloc: Global) -> Result<Self, AllocError> {
        Ok(Command {
            line: self.line,
            what: self.what.copy(alloc)?,
        })
    }
}

// The request of a line.
fn request_of(alloc: Global, what: &What) -> Result<Request, AllocError>
    ensures { IfOk result (λ asked. asked ≡ request_of what.now) }
{
    match what {
        What::Ask(request) => request.copy(alloc),
        What::Abort => Ok(Request::Undo),
    }
}

// Where a client stands after the answer to the request of the line at this index.
fn after_what(what: &What, retries: u8, index: usize, held: u8, reply: &Reply) -> Standing
    requires { index < 9223372036854775808 }
    ensures { result ≡ after_what what.now retries index held reply.now }
{
    match what {
        What::Ask(_) => after_ask(retries, index, held, reply),
        What::Abort if ends_abort(reply) => Standing::AtLine {
            index: index + 1,
            held: 0,
        },
        What::Abort => Standing::AtLine { index, held: 0 },
    }
}

fn after_ask(retries: u8, index: usize, held: u8, reply: &Reply) -> Standing
    requires { index < 9223372036854775808 }
    ensures { result ≡ after_ask retries index held reply.now }
{
    if is_held(reply) {
        if held < retries {
            Standing::AtLine {
                index,
                held: held + 1,
            }
        } else {
            Standing::GaveUp { index }
        }
    } else if is_doomed(reply) {
        Standing::GaveUp { index }
    } else {
        Standing::AtLine {
            index: index + 1,
            held: 0,
        }
    }
}

// Where a client stands that gave up the line at this index.
fn after_undo(commands: &[Command], index: usize, reply: &Reply) -> Standing
    requires { index ≤ length commands.now }
    ensures { result ≡ after_undo commands.now index reply.now }
{
    if is_aborted(reply) {
        let left = commands.split_at(index).1;
        Standing::AtLine {
            index: index + passed_over(left),
            held: 0,
        }
    } else {
        Standing::GaveUp { index }
    }
}

// How many of these lines a client passes over that gave up the first.
fn passed_over(commands: &[Command]) -> usize
    ensures count { result ≡ passed_over commands.now }
    ensures most { result ≤ length commands.now }
{
    match first_end(commands) {
        Some(index) => index + 1,
        None => commands.len(),
    }
}

// The index of the first line that ends a transaction.
fn first_end(commands: &[Command]) -> Option<usize>
    ensures index { result ≡ position (λ (c : TheCommand). ends_transaction c.what) commands.now }
    ensures within { IfSome result (λ index. index < length commands.now) }
{
    commands
        .iter()
        .position(|command| ends_transaction(command))
}

fn ends_transaction(command: &Command) -> bool
    ensures { result ≡ ends_transaction command.now.what }
{
    match &command.what {
        What::Ask(request) => is_commit(request),
        What::Abort => true,
    }
}

#[tactic(auto, unfolding(crate::specs::Courses::is_commit))]
fn is_commit(request: &Request) -> bool
    ensures { result ≡ is_commit request.now }
{
    matches!(request, Request::Commit)
}

#[tactic(auto, unfolding(crate::specs::Courses::is_held))]
fn is_held(reply: &Reply) -> bool
    ensures { result ≡ is_held reply.now }
{
    matches!(reply, Reply::Held { .. } | Reply::Draining)
}

#[tactic(auto, unfolding(crate::specs::Courses::is_doomed))]
fn is_doomed(reply: &Reply) -> bool
    ensures { result ≡ is_doomed reply.now }
{
    matches!(reply, Reply::Doomed)
}

#[tactic(auto, unfolding(crate::specs::Courses::is_aborted))]
fn is_aborted(reply: &Reply) -> bool
    ensures { result ≡ is_aborted reply.now }
{
    matches!(reply, Reply::Aborted { .. })
}

#[tactic(auto, unfolding(crate::specs::Courses::ends_abort))]
fn ends_abort(reply: &Reply) -> bool
    ensures { result ≡ ends_abort reply.now }
{
    matches!(reply, Reply::Aborted { .. } | Reply::NoTxn)
}
