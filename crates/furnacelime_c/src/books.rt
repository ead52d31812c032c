//! The book of a task set, for an executive in C that brings its own threads, gates and jobs.
ghost use Rattle.std.specs.Prelude.{◌≡◌, ◌≢◌, ◌≤◌, None, length, IfOk, IfErr};
ghost use Rattle.sched_base.specs.Limits.{window_limit};
ghost use Rattle.round_steps.specs.Refusals.{IsRefusedFor};
ghost use Rattle.book_steps.specs.Books.{IsBookOf};
ghost use Rattle.book_steps.specs.Turns.{Posts, Halts, Waits};
ghost use Rattle.furnacelime_c.specs.Books.{TellsBook, IsBookOpened, IsBookNotOpened, Goes, IsRowTold, IsAllPosted, IsHalted, CantTake};
ghost use Rattle.furnacelime_c.specs.Books.{CantPost, CantPostAndTake, PostsAndTakes, PostsAndWaits, PostsAndEnds, PostsAndHalts};
ghost use Rattle.furnacelime_c.specs.Books.{TellsEnd, TellsFault, TellsWant, IsShortOf, IsNoProcessor};
ghost use Rattle.furnacelime_c.specs.Numbers.{wrong_call, over, wait, halted, IsTakesEnd};

use crate::numbers::{HALTED, OVER, WAIT, WRONG_CALL};
use book_steps::{StepBook, Turn};
use c_handles::BookHandle;
use round_steps::{Halves, NO_TASK, OpenFault, halves_of, task_shown};
use sched_base::WINDOW_LIMIT;
use std::alloc::Global;

/// What a book is about: the ticks of a unit, the tick at which the last round ends, the numbers of processors and tasks, and 1 where the schedule
/// can be run again and again, else 0.
#[repr(C)]
#[derive(Clone, Copy, Debug, PartialEq, Eq)]
pub struct BookAbout {
    pub scale: Halves,
    pub end: Halves,
    pub processors: u32,
    pub tasks: u32,
    pub repeats: u32,
}

/// A row, in ticks, or for whom a processor waits.
#[repr(C)]
#[derive(Clone, Copy, Debug, PartialEq, Eq)]
pub struct BookRow {
    pub start: Halves,
    pub end: Halves,
    pub task: u32,
    pub waits_for: u32,
}

/// How far a book is: whether it is halted, and if so the failure of the lowest processor that had one.
#[repr(C)]
#[derive(Clone, Copy, Debug, PartialEq, Eq)]
pub struct BookEnd {
    pub start: Halves,
    pub end: Halves,
    pub task: u32,
    pub processor: u32,
    pub why: u32,
    pub halted: u32,
}

/// What the next row of a processor wants: so many ticks of this task are to be posted before. The number of the task is that of none where the row
/// has no task, and where its round isn't computed.
#[repr(C)]
#[derive(Clone, Copy, Debug, PartialEq, Eq)]
pub struct BookWant {
    pub before: Halves,
    pub task: u32,
}

/// Opens the book of a task set, before the first event; else the number is the status with which the program refuses to execute the set, or
/// 64 where the window isn't from 1 to 1024.
#[unsafe(no_mangle)]
pub extern "C" fn furnacelime_exec_open(
    alloc: Global,
    set: &[u8],
    window: u32,
    book: &mut BookHandle,
    about: &mut BookAbout,
) -> u8
    requires closed { book.old.book ≡ None }
    ensures opened { result ≡ 0 → IsBookOpened set.now window book.new.book about.new }
    ensures refused { result ≢ 0 → IsBookNotOpened set.now window book.new.book result }
    ensures untold { result ≢ 0 → about.new ≡ about.old }
{
    if window < 1 || WINDOW_LIMIT < window {
        return WRONG_CALL;
    }
    match open_boxed(alloc, set, window) {
        Ok(opened) => {
            *about = about_of(&opened);
            *book = BookHandle::of(opened);
            0
        }
        Err(fault) => fault.status().code(),
    }
}

/// Takes the next row of a processor. The book moves into `kept`.
#[unsafe(no_mangle)]
pub extern "C" fn furnacelime_take(
    alloc: Global,
    book: BookHandle,
    kept: &mut BookHandle,
    processor: u32,
    row: &mut BookRow,
) -> u8
    requires open { book.book ≢ None }
    requires empty { kept.old.book ≡ None }
    ensures ready { result ≡ 0 → Goes book.book kept.new.book (λ old new. IsRowTold old new processor row.new) }
    ensures wait { result ≡ wait → Goes book.book kept.new.book (λ old new. Waits old new processor row.new.waits_for) }
    ensures over { result ≡ over → Goes book.book kept.new.book (λ old new. IsAllPosted old new processor) }
    ensures halted { result ≡ halted → Goes book.book kept.new.book IsHalted }
    ensures wrong { result ≡ wrong_call → Goes book.book kept.new.book (λ old new. CantTake old new processor) }
    ensures waiting { result ≡ wait → row.new ≡ record row.old { waits_for = row.new.waits_for } }
    ensures untold { result ≢ 0 → result ≢ wait → row.new ≡ row.old }
    ensures status { IsTakesEnd result }
{
    let mut steps = book.into_box(alloc);
    let status = take_turn(&mut steps, processor, row);
    steps.know_sound();
    *kept = BookHandle::of(steps);
    status
}

/// Posts the row that is out on a processor. The book moves into `kept`.
#[unsafe(no_mangle)]
pub extern "C" fn furnacelime_post(
    alloc: Global,
    book: BookHandle,
    kept: &mut BookHandle,
    processor: u32,
) -> u8
    requires open { book.book ≢ None }
    requires empty { kept.old.book ≡ None }
    ensures posted { result ≡ 0 → Goes book.book kept.new.book (λ old new. Posts old new processor) }
    ensures wrong { result ≢ 0 → (result ≡ wrong_call) × Goes book.book kept.new.book (λ old new. CantPost old new processor) }
{
    let mut steps = book.into_box(alloc);
    let status = post_turn(&mut steps, processor);
    steps.know_sound();
    *kept = BookHandle::of(steps);
    status
}

/// Posts the row that is out on a processor, and takes its next one. The book moves into `kept`.
#[unsafe(no_mangle)]
pub extern "C" fn furnacelime_post_and_take(
    alloc: Global,
    book: BookHandle,
    kept: &mut BookHandle,
    processor: u32,
    row: &mut BookRow,
) -> u8
    requires open { book.book ≢ None }
    requires empty { kept.old.book ≡ None }
    ensures ready { result ≡ 0 → Goes book.book kept.new.book (λ old new. PostsAndTakes old new processor row.new) }
    ensures wait { result ≡ wait → Goes book.book kept.new.book (λ old new. PostsAndWaits old new processor row.new.waits_for) }
    ensures over { result ≡ over → Goes book.book kept.new.book (λ old new. PostsAndEnds old new processor) }
    ensures halted { result ≡ halted → Goes book.book kept.new.book (λ old new. PostsAndHalts old new processor) }
    ensures wrong { result ≡ wrong_call → Goes book.book kept.new.book (λ old new. CantPostAndTake old new processor) }
    ensures waiting { result ≡ wait → row.new ≡ record row.old { waits_for = row.new.waits_for } }
    ensures untold { result ≢ 0 → result ≢ wait → row.new ≡ row.old }
    ensures status { IsTakesEnd result }
{
    let mut steps = book.into_box(alloc);
    let status = post_and_take(&mut steps, processor, row);
    steps.know_sound();
    *kept = BookHandle::of(steps);
    status
}

/// Puts the row that is out on a processor back unposted, for the fault of this number. The book is halted, and moves into `kept`.
#[unsafe(no_mangle)]
pub extern "C" fn furnacelime_halt(
    alloc: Global,
    book: BookHandle,
    kept: &mut BookHandle,
    processor: u32,
    why: u32,
) -> u8
    requires open { book.book ≢ None }
    requires empty { kept.old.book ≡ None }
    ensures halted { result ≡ 0 → Goes book.book kept.new.book (λ old new. Halts old new processor why) }
    ensures wrong { result ≢ 0 → (result ≡ wrong_call) × Goes book.book kept.new.book (λ old new. CantPost old new processor) }
{
    let mut steps = book.into_box(alloc);
    let status = halt_turn(&mut steps, processor, why);
    steps.know_sound();
    *kept = BookHandle::of(steps);
    status
}

/// Tells how many rows each processor has posted, of each task the ticks of its posted rows, and the first failure. With too little room the
/// number is 64. The book moves into `kept`, as it was.
#[unsafe(no_mangle)]
pub extern "C" fn furnacelime_exec_tell(
    alloc: Global,
    book: BookHandle,
    kept: &mut BookHandle,
    posted: &mut [u64],
    totals: &mut [Halves],
    end: &mut BookEnd,
) -> u8
    requires open { book.book ≢ None }
    requires empty { kept.old.book ≡ None }
    ensures told { result ≡ 0 → Goes book.book kept.new.book (λ old new. TellsEnd old new posted.old posted.new totals.old totals.new end.new) }
    ensures short { result ≢ 0 → (result ≡ wrong_call) × Goes book.book kept.new.book (λ old new. IsShortOf old new (length posted.old) (length totals.old)) }
    ensures untold { result ≢ 0 → (posted.new ≡ posted.old) × ((totals.new ≡ totals.old) × (end.new ≡ end.old)) }
{
    let steps = book.into_box(alloc);
    let status = tell_end(&steps, posted, totals, end);
    steps.know_sound();
    *kept = BookHandle::of(steps);
    status
}

/// Tells what the next row of a processor wants. Where there is no such processor the number is 64. The book moves into `kept`, as it was.
#[unsafe(no_mangle)]
pub extern "C" fn furnacelime_exec_want(
    alloc: Global,
    book: BookHandle,
    kept: &mut BookHandle,
    processor: u32,
    want: &mut BookWant,
) -> u8
    requires open { book.book ≢ None }
    requires empty { kept.old.book ≡ None }
    ensures told { result ≡ 0 → Goes book.book kept.new.book (λ old new. TellsWant old new processor want.new) }
    ensures wrong { result ≢ 0 → (result ≡ wrong_call) × Goes book.book kept.new.book (λ old new. IsNoProcessor old new processor) }
    ensures untold { result ≢ 0 → want.new ≡ want.old }
{
    let steps = book.into_box(alloc);
    let status = tell_want(&steps, processor, want);
    steps.know_sound();
    *kept = BookHandle::of(steps);
    status
}

/// Gives the memory of a book back.
#[unsafe(no_mangle)]
pub extern "C" fn furnacelime_exec_close(alloc: Global, book: BookHandle)
    requires open { book.book ≢ None }
{
    let _steps = book.into_box(alloc);
}

// The book of a set, in a block of its own.
fn open_boxed(alloc: Global, set: &[u8], window: u32) -> Result<Box<StepBook>, OpenFault>
    requires some_window { 1 ≤ window }
    requires small_window { window ≤ window_limit }
    ensures opened { IfOk result (λ opened. IsBookOf set.now window opened.value) }
    ensures refused { IfErr result (IsRefusedFor set.now) }
{
    let opened = StepBook::open(alloc, set, window)?;
    match Box::new(alloc, opened) {
        Ok(boxed) => Ok(boxed),
        Err(_) => Err(OpenFault::NoMemory),
    }
}

// What is told of a book.
fn about_of(book: &StepBook) -> BookAbout
    ensures { TellsBook book.now result }
{
    BookAbout {
        scale: halves_of(book.scale()),
        end: halves_of(book.end()),
        processors: book.processors(),
        tasks: book.tasks(),
        repeats: u32::from(book.can_repeat()),
    }
}

// Takes the next row of a processor.
fn take_turn(book: &mut StepBook, processor: u32, row: &mut BookRow) -> u8
    ensures ready { result ≡ 0 → IsRowTold book.old book.new processor row.new }
    ensures wait { result ≡ wait → Waits book.old book.new processor row.new.waits_for }
    ensures over { result ≡ over → IsAllPosted book.old book.new processor }
    ensures halted { result ≡ halted → IsHalted book.old book.new }
    ensures wrong { result ≡ wrong_call → CantTake book.old book.new processor }
    ensures waiting { result ≡ wait → row.new ≡ record row.old { waits_for = row.new.waits_for } }
    ensures untold { result ≢ 0 → result ≢ wait → row.new ≡ row.old }
    ensures status { IsTakesEnd result }
{
    if processor >= book.processors() {
        return WRONG_CALL;
    }
    if book.is_out(processor) {
        return WRONG_CALL;
    }
    match book.take(processor) {
        Turn::Ready(next) => {
            row.start = halves_of(next.start);
            row.end = halves_of(next.end);
            row.task = task_shown(next.leaf);
            0
        }
        Turn::Wait(lane) => {
            row.waits_for = lane;
            WAIT
        }
        Turn::Over => OVER,
        Turn::Halted => HALTED,
        Turn::Full => WRONG_CALL,
    }
}

// Posts the row that is out on a processor.
fn post_turn(book: &mut StepBook, processor: u32) -> u8
    ensures posted { result ≡ 0 → Posts book.old book.new processor }
    ensures wrong { result ≢ 0 → (result ≡ wrong_call) × CantPost book.old book.new processor }
{
    if processor >= book.processors() || !book.is_out(processor) {
        return WRONG_CALL;
    }
    book.post(processor);
    0
}

// Posts the row that is out on a processor, and takes its next one.
fn post_and_take(book: &mut StepBook, processor: u32, row: &mut BookRow) -> u8
    ensures ready { result ≡ 0 → PostsAndTakes book.old book.new processor row.new }
    ensures wait { result ≡ wait → PostsAndWaits book.old book.new processor row.new.waits_for }
    ensures over { result ≡ over → PostsAndEnds book.old book.new processor }
    ensures halted { result ≡ halted → PostsAndHalts book.old book.new processor }
    ensures wrong { result ≡ wrong_call → CantPostAndTake book.old book.new processor }
    ensures waiting { result ≡ wait → row.new ≡ record row.old { waits_for = row.new.waits_for } }
    ensures untold { result ≢ 0 → result ≢ wait → row.new ≡ row.old }
    ensures status { IsTakesEnd result }
{
    if processor >= book.processors() || !book.is_out(processor) {
        return WRONG_CALL;
    }
    if book.is_full() {
        return WRONG_CALL;
    }
    book.post(processor);
    match book.take(processor) {
        Turn::Ready(next) => {
            row.start = halves_of(next.start);
            row.end = halves_of(next.end);
            row.task = task_shown(next.leaf);
            0
        }
        Turn::Wait(lane) => {
            row.waits_for = lane;
            WAIT
        }
        Turn::Over => OVER,
        Turn::Halted => HALTED,
        Turn::Full => unreachable!(),
    }
}

// Puts the row that is out on a processor back unposted.
fn halt_turn(book: &mut StepBook, processor: u32, why: u32) -> u8
    ensures halted { result ≡ 0 → Halts book.old book.new processor why }
    ensures wrong { result ≢ 0 → (result ≡ wrong_call) × CantPost book.old book.new processor }
{
    if processor >= book.processors() || !book.is_out(processor) {
        return WRONG_CALL;
    }
    book.halt(processor, why);
    0
}

// Tells how far a book is.
fn tell_end(book: &StepBook, posted: &mut [u64], totals: &mut [Halves], end: &mut BookEnd) -> u8
    ensures told { result ≡ 0 → TellsEnd book.now book.now posted.old posted.new totals.old totals.new end.new }
    ensures short { result ≢ 0 → (result ≡ wrong_call) × IsShortOf book.now book.now (length posted.old) (length totals.old) }
    ensures untold { result ≢ 0 → (posted.new ≡ posted.old) × ((totals.new ≡ totals.old) × (end.new ≡ end.old)) }
{
    if posted.len() < book.processors() as usize || totals.len() < book.tasks() as usize {
        return WRONG_CALL;
    }
    book.write_posted(posted);
    book.write_totals(totals);
    *end = end_of(book);
    0
}

// Tells what the next row of a processor wants.
fn tell_want(book: &StepBook, processor: u32, want: &mut BookWant) -> u8
    ensures told { result ≡ 0 → TellsWant book.now book.now processor want.new }
    ensures wrong { result ≢ 0 → (result ≡ wrong_call) × IsNoProcessor book.now book.now processor }
    ensures untold { result ≢ 0 → want.new ≡ want.old }
{
    if processor >= book.processors() {
        return WRONG_CALL;
    }
    match book.wanted(processor) {
        Some(next) => {
            want.before = halves_of(next.before);
            want.task = task_shown(next.row.leaf);
        }
        None => want.task = NO_TASK,
    }
    0
}

// The failure of the lowest processor that had one.
fn end_of(book: &StepBook) -> BookEnd
    ensures { TellsFault book.now result }
{
    match book.first_fault() {
        Some(fault) => BookEnd {
            start: halves_of(fault.row.start),
            end: halves_of(fault.row.end),
            task: task_shown(fault.row.leaf),
            processor: fault.processor,
            why: fault.why,
            halted: 1,
        },
        None => BookEnd {
            start: halves_of(0),
            end: halves_of(0),
            task: NO_TASK,
            processor: NO_TASK,
            why: 0,
            halted: 0,
        },
    }
}
