//! The lines of refusals: `refused`, the status, and why.
ghost use Rattle.std.specs.Prelude.{◌≡◌, ◌≤◌, ◌+◌, ◌++◌, ◌∷◌, [], length, codes, decimal, map};
ghost use Rattle.std.specs.Fmt.{signed_decimal};
ghost use Rattle.sched_base.specs.Bytes.{space};
ghost use Rattle.sched_edges.specs.Causes.{HasCause};
ghost use Rattle.sched_edges.specs.Lines.{line_of};
ghost use Rattle.sched_edges.specs.Streams.{Wrote};
ghost use Rattle.task_reader.specs.Keys.{key_text};
ghost use Rattle.pure_commands.specs.Refusals.{place_and, place_text, key_start, refusal_line, printed_byte, printed_name, tree_kind_text};
ghost use Rattle.exit_status.specs.Status.{code_of};
ghost use Rattle.pure_commands.specs.Ends.{error_of};
ghost use Rattle.pure_commands.specs.Refuse.{IsRefused};
ghost use Rattle.exit_status.specs.declared.Status.TheVariants.{BadInput};
ghost use Rattle.pure_commands.specs.declared.refusal.Refusal.TheVariants.{BadSet, Overload, ScaleTooLarge, TooLong, GateFault, JobFault};
ghost use Rattle.pure_commands.specs.declared.refusal.Refusal.TheVariants.{BadTree};
ghost use Rattle.task_reader.specs.declared.refusals.ReadSet.TheVariants.{UnknownKey};

use crate::mode_line::write_mode_refusal;
use crate::refusal::Refusal;
use exit_status::Status;
use sched_base::{Name, Row};
use sched_edges::{Failed, Line, Sink, write_all};
use task_reader::{Key, Place, ReadSet};
use tree_check::TreeKind;

/// The most bytes of an unknown key that are written at once.
const PIECE: usize = 128;

/// Writes the line of a refusal, and gives its status. It takes no memory.
pub fn refuse<E: Sink>(refusal: &Refusal, err: &mut E) -> Status
    ensures { IsRefused refusal.now (error_of E.Sink err.old) (error_of E.Sink err.new) result }
{
    // Whether that fails changes nothing else.
    let _told = write_refusal(refusal, err);
    refusal.status()
}

// Writes the line of a refusal, as one piece but for that of an unknown key, whose text may be long, and for that of a mode.
fn write_refusal<W: Sink>(refusal: &Refusal, out: &mut W) -> Result<(), Failed>
    ensures wrote { Wrote (W.taken out.old) (W.taken out.new) (refusal_line refusal.now) result }
    ensures cause { HasCause (W.faults out.old) (W.faults out.new) result }
{
    let line = match refusal {
        Refusal::BadSet(refusal) => return write_set_refusal(refusal, out),
        Refusal::OfMode { mode, refusal } => return write_mode_refusal(*mode, refusal, out),
        Refusal::Usage => plain_line(Status::Usage, b"Usage"),
        Refusal::ReadFault => plain_line(Status::ReadFault, b"ReadFault"),
        Refusal::WriteFault => plain_line(Status::WriteFault, b"WriteFault"),
        Refusal::NoMemory => plain_line(Status::NoMemory, b"NoMemory"),
        Refusal::BadLine { line } => number_line(Status::BadInput, b"BadLine", u128::from(*line)),
        Refusal::BadProgram { line } => number_line(
            Status::BadInput,
            b"BadProgram",
            u128::from(*line),
        ),
        Refusal::Overload { total, room } => overload_line(*total, *room),
        Refusal::ScaleTooLarge { task } => scale_line(*task),
        Refusal::TooLong { rows } => rows_line(*rows),
        Refusal::GateFault { row, name } => gate_line(row, name),
        Refusal::JobFault { row, name } => job_line(row, name),
        Refusal::InputTooLong { count } => number_line(
            Status::InputTooLong,
            b"InputTooLong",
            u128::from(*count),
        ),
        Refusal::BadTree { line, kind } => tree_line(*line, *kind),
        Refusal::TooWide { ticks } => counted_line(Status::TooWide, b"TooWide", b"ticks", *ticks),
        Refusal::NoRepeat { task } => counted_line(
            Status::TooWide,
            b"NoRepeat",
            b"offset",
            u128::from(*task),
        ),
        Refusal::WideRepeat { units } => counted_line(
            Status::TooWide,
            b"NoRepeat",
            b"units",
            *units,
        ),
    };
    write_line(line, out)
}

/// Writes the line of a refusal of bytes that are no set.
pub(crate) fn write_set_refusal<W: Sink>(refusal: &ReadSet, out: &mut W) -> Result<(), Failed>
    ensures wrote { Wrote (W.taken out.old) (W.taken out.new) (refusal_line (BadSet refusal.now)) result }
    ensures cause { HasCause (W.faults out.old) (W.faults out.new) result }
{
    let line = match refusal {
        ReadSet::UnknownKey { place, key } => return write_key_line(*place, key.as_slice(), out),
        ReadSet::NotToml => plain_line(Status::BadInput, b"NotToml"),
        ReadSet::Missing { place, key } => place_line(b"Missing", *place, key_text(*key)),
        ReadSet::WrongKind { place, key } => place_line(b"WrongKind", *place, key_text(*key)),
        ReadSet::BadProcessors { value } => value_line(b"BadProcessors", *value),
        ReadSet::BadHorizon { value } => value_line(b"BadHorizon", *value),
        ReadSet::TooManyTasks { count } => number_line(
            Status::BadInput,
            b"TooManyTasks",
            u128::from(*count),
        ),
        ReadSet::BadName { index } => index_line(b"BadName", *index),
        ReadSet::SameName { index } => index_line(b"SameName", *index),
        ReadSet::BadPeriod { index } => index_line(b"BadPeriod", *index),
        ReadSet::BadWork { index } => index_line(b"BadWork", *index),
        ReadSet::BadOffset { index } => index_line(b"BadOffset", *index),
        ReadSet::NoMemory => plain_line(Status::NoMemory, b"NoMemory"),
    };
    write_line(line, out)
}

/// Writes a line as one piece.
pub(crate) fn write_line<W: Sink>(line: Line, out: &mut W) -> Result<(), Failed>
    ensures wrote { Wrote (W.taken out.old) (W.taken out.new) line result }
    ensures cause { HasCause (W.faults out.old) (W.faults out.new) result }
{
    write_all(out, line.as_slice())
}

// The text of a key of the format.
fn key_text(key: Key) -> &'static [u8]
    ensures text { result.now ≡ key_text key }
    ensures short { length result.now ≤ 16 }
{
    match key {
        Key::Processors => b"processors",
        Key::Horizon => b"horizon",
        Key::Task => b"task",
        Key::Name => b"name",
        Key::Work => b"work",
        Key::Period => b"period",
        Key::Offset => b"offset",
    }
}

/// The begin of a line: the status, and the first word of why.
pub(crate) fn begin(status: Status, why: &[u8]) -> Line
    requires { length why.now ≤ 32 }
    ensures text { result ≡ codes "refused" ++ (space ∷ (decimal (code_of status) ++ (space ∷ why.now))) }
    ensures short { length result ≤ 96 }
    ensures near { length result ≤ 50 + length why.now }
{
    let mut line = Line::new();
    line.text(b"refused");
    line.space();
    line.number(u128::from(status.code()));
    line.space();
    line.text(why);
    line
}

// A line with no more words.
#[tactic(auto, unfolding(sched_edges::specs::Lines::line_of))]
fn plain_line(status: Status, why: &[u8]) -> Line
    requires { length why.now ≤ 32 }
    ensures { result ≡ line_of (codes "refused") (decimal (code_of status) ∷ why.now ∷ []) }
{
    let mut line = begin(status, why);
    line.end();
    line
}

// A line with a number.
#[tactic(auto, unfolding(sched_edges::specs::Lines::line_of))]
fn number_line(status: Status, why: &[u8], number: u128) -> Line
    requires { length why.now ≤ 32 }
    ensures { result ≡ line_of (codes "refused") (decimal (code_of status) ∷ why.now ∷ decimal number ∷ []) }
{
    let mut line = begin(status, why);
    line.space();
    line.number(number);
    line.end();
    line
}

/// A line with a word and a number.
#[tactic(auto, unfolding(sched_edges::specs::Lines::line_of))]
pub(crate) fn counted_line(status: Status, why: &[u8], word: &[u8], number: u128) -> Line
    requires why { length why.now ≤ 32 }
    requires word { length word.now ≤ 16 }
    ensures { result ≡ line_of (codes "refused") (decimal (code_of status) ∷ why.now ∷ word.now ∷ decimal number ∷ []) }
{
    let mut line = begin(status, why);
    add_number(&mut line, word, number);
    line.end();
    line
}

// A line with a value that may be below 0.
#[tactic(auto, unfolding(sched_edges::specs::Lines::line_of))]
fn value_line(why: &[u8], value: i64) -> Line
    requires { length why.now ≤ 32 }
    ensures { result ≡ line_of (codes "refused") (decimal (code_of BadInput) ∷ why.now ∷ signed_decimal value ∷ []) }
{
    let mut line = begin(Status::BadInput, why);
    line.space();
    line.signed(value);
    line.end();
    line
}

// The words of a place, and one more.
#[tactic(auto, unfolding(sched_edges::specs::Lines::line_of))]
fn place_line(why: &[u8], place: Place, word: &[u8]) -> Line
    requires why { length why.now ≤ 32 }
    requires word { length word.now ≤ 16 }
    ensures { result ≡ line_of (codes "refused") (decimal (code_of BadInput) ∷ why.now ∷ place_and place word.now) }
{
    let mut line = begin(Status::BadInput, why);
    add_place(&mut line, place);
    line.space();
    line.text(word);
    line.end();
    line
}

// Adds the words of a place.
fn add_place(line: &mut Line, place: Place)
    requires { length line.old ≤ 128 }
    ensures text { line.new ≡ line.old ++ place_text place }
    ensures short { length line.new ≤ length line.old + 48 }
{
    line.space();
    match place {
        Place::Top => line.text(b"top"),
        Place::Task(index) => {
            line.text(b"task");
            line.space();
            line.number(u128::from(index));
        }
    }
}

// A line with the index of a task.
fn index_line(why: &[u8], index: u32) -> Line
    requires { length why.now ≤ 32 }
    ensures { result ≡ line_of (codes "refused") (decimal (code_of BadInput) ∷ why.now ∷ decimal index ∷ []) }
{
    number_line(Status::BadInput, why, u128::from(index))
}

/// The line of a schedule with too many rows.
#[tactic(auto, unfolding(crate::specs::Refusals::refusal_line))]
pub(crate) fn rows_line(rows: u64) -> Line
    ensures { result ≡ refusal_line (TooLong rows) }
{
    counted_line(Status::TooLong, b"TooLong", b"rows", u128::from(rows))
}

/// Adds a word and a number.
pub(crate) fn add_number(line: &mut Line, word: &[u8], number: u128)
    requires line { length line.old ≤ 190 }
    requires word { length word.now ≤ 16 }
    ensures text { line.new ≡ line.old ++ (space ∷ (word.now ++ (space ∷ decimal number))) }
    ensures short { length line.new ≤ length line.old + 58 }
    ensures near { length line.new ≤ length line.old + length word.now + 42 }
{
    line.space();
    line.text(word);
    line.space();
    line.number(number);
}

/// The line of tasks that ask for more than there is.
#[tactic(auto, unfolding(crate::specs::Refusals::refusal_line, sched_edges::specs::Lines::line_of))]
pub(crate) fn overload_line(total: u128, room: u128) -> Line
    ensures { result ≡ refusal_line (Overload total room) }
{
    let mut line = begin(Status::Overload, b"Overload");
    add_number(&mut line, b"total", total);
    add_number(&mut line, b"room", room);
    line.end();
    line
}

/// The line of a scale past the limit.
pub(crate) fn scale_line(task: u32) -> Line
    ensures { result ≡ refusal_line (ScaleTooLarge task) }
{
    counted_line(
        Status::ScaleTooLarge,
        b"ScaleTooLarge",
        b"task",
        u128::from(task),
    )
}

// The line of a tree text that isn't that of a reduction tree.
#[tactic(auto, unfolding(crate::specs::Refusals::refusal_line, sched_edges::specs::Lines::line_of))]
fn tree_line(number: u64, kind: TreeKind) -> Line
    ensures { result ≡ refusal_line (BadTree number kind) }
{
    let mut line = begin(Status::BadTree, b"BadTree");
    add_number(&mut line, b"line", u128::from(number));
    line.space();
    line.text(tree_kind_text(kind));
    line.end();
    line
}

// What is wrong with a tree text, as it is printed.
fn tree_kind_text(kind: TreeKind) -> &'static [u8]
    ensures text { result.now ≡ tree_kind_text kind }
    ensures short { length result.now ≤ 16 }
{
    match kind {
        TreeKind::Total => b"total",
        TreeKind::Unplaced => b"unplaced",
        TreeKind::Member => b"member",
        TreeKind::Rate => b"rate",
        TreeKind::Pair => b"pair",
        TreeKind::Unfinished => b"unfinished",
    }
}

/// The line of a gate that failed.
#[tactic(auto, unfolding(crate::specs::Refusals::refusal_line, sched_edges::specs::Lines::line_of))]
pub(crate) fn gate_line(row: &Row, name: &Option<Name>) -> Line
    ensures { result ≡ refusal_line (GateFault row.now name.now) }
{
    let mut line = begin(Status::GateFault, b"GateFault");
    add_number(&mut line, b"processor", u128::from(row.processor));
    add_number(&mut line, b"row", row.start);
    line.space();
    line.number(row.end);
    line.space();
    line.text(printed_name(name));
    line.end();
    line
}

/// The line of a job that failed.
#[tactic(auto, unfolding(crate::specs::Refusals::refusal_line, sched_edges::specs::Lines::line_of))]
pub(crate) fn job_line(row: &Row, name: &Option<Name>) -> Line
    ensures { result ≡ refusal_line (JobFault row.now name.now) }
{
    let mut line = begin(Status::JobFault, b"JobFault");
    line.space();
    line.text(b"task");
    line.space();
    line.text(printed_name(name));
    add_number(&mut line, b"processor", u128::from(row.processor));
    add_number(&mut line, b"row", row.start);
    line.space();
    line.number(row.end);
    line.end();
    line
}

// The name of a row's task, as it is printed.
fn printed_name(name: &Option<Name>) -> &[u8]
    ensures text { result.now ≡ printed_name name.now }
    ensures short { length result.now ≤ 32 }
{
    match name {
        Some(name) => name.as_slice(),
        None => b"-",
    }
}

// Writes the line of an unknown key, each byte of its text printed.
fn write_key_line<W: Sink>(place: Place, key: &[u8], out: &mut W) -> Result<(), Failed>
    ensures wrote { Wrote (W.taken out.old) (W.taken out.new) (refusal_line (BadSet (UnknownKey place key.now))) result }
    ensures cause { HasCause (W.faults out.old) (W.faults out.new) result }
{
    write_all(out, key_start(place).as_slice())?;
    write_printed(key, out)?;
    write_all(out, b"\n")
}

// What stands before an unknown key.
fn key_start(place: Place) -> Line
    ensures { result ≡ key_start place }
{
    let mut start = begin(Status::BadInput, b"UnknownKey");
    add_place(&mut start, place);
    start.space();
    start
}

// Writes bytes as they are printed, in pieces.
fn write_printed<W: Sink>(bytes: &[u8], out: &mut W) -> Result<(), Failed>
    ensures wrote { Wrote (W.taken out.old) (W.taken out.new) (map printed_byte bytes.now) result }
    ensures cause { HasCause (W.faults out.old) (W.faults out.new) result }
{
    let mut rest = bytes;
    while !rest.is_empty() {
        let (piece, after) = rest.split_at(rest.len().min(PIECE));
        write_all(out, printed(piece).as_slice())?;
        rest = after;
    }
    Ok(())
}

// Bytes as they are printed.
fn printed(bytes: &[u8]) -> Line
    requires { length bytes.now ≤ 128 }
    ensures { result ≡ map printed_byte bytes.now }
{
    let mut line = Line::new();
    for byte in bytes {
        line.text(&[printed_byte(*byte)]);
    }
    line
}

fn printed_byte(byte: u8) -> u8
    ensures { result ≡ printed_byte byte }
{
    if byte.is_ascii_graphic() { byte } else { b'?' }
}
