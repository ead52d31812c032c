//! The command `modes`.
ghost use Rattle.std.specs.Prelude.{◌≡◌, ◌≤◌, [], length, map, IfOk, IfErr, OnOk, Ok};
ghost use Rattle.std.specs.List.{All, AllZip, slice_range};
ghost use Rattle.mode_switch.specs.Runs.{IsRunOf};
ghost use Rattle.task_reader.specs.Pieces.{pieces_of, bytes_in, IsWithin};
ghost use Rattle.task_reader.specs.Reading.{set_read_from};
ghost use Rattle.pure_commands.specs.Commands.{set_limit};
ghost use Rattle.pure_commands.specs.Ends.{streams_of};
ghost use Rattle.run_tool.specs.Executed.{EndsExecution};
ghost use Rattle.run_tool.specs.Executions.{crew_of, IsFreshCrew, AreBack};
ghost use Rattle.run_tool.specs.ModeInput.{GaveModes, GaveNoModes, RefusesPiece, RefusesPieces};
ghost use Rattle.run_tool.specs.ModeRuns.{RanThrough, StopsInModes};
ghost use Rattle.run_tool.specs.ModeTexts.{ReadsSets};
ghost use Rattle.command_words.specs.declared.command.Execution.TheVariants.{Modes as TheModes};

use crate::exec::name_at;
use crate::mode_text::write_modes;
use command_words::USUAL_WINDOW;
use exec_workers::Kit;
use mode_switch::{Modes, ModesFault, ModesRun, run_modes};
use pure_commands::{ModeRefusal, Refusal, SET_LIMIT, written};
use round_table::table_law;
use sched_base::TaskSet;
use sched_edges::{BoxedJob, Gate, Job, Jobs, Sink, Source, read_all};
use std::alloc::Global;
use std::sync::Wait;
use std::thread::Threads;
use task_reader::{Pieces, ReadSet, cut, pieces_law, read_set};

/// Reads the source to its end, as sets that can be modes.
pub(crate) fn read_modes<R: Source>(alloc: Global, source: &mut R) -> Result<Modes, Refusal>
    ensures read { IfOk result (GaveModes (R.left source.old) (R.left source.new) SET_LIMIT) }
    ensures refusal { IfErr result (GaveNoModes (R.left source.old) (R.left source.new)
        (R.faults source.old) (R.faults source.new) SET_LIMIT) }
{
    let bytes = read_all(alloc, source, SET_LIMIT)?;
    let sets = read_sets(alloc, bytes.as_slice())?;
    Ok(Modes::join(alloc, sets)?)
}

// The sets of the pieces of a text. All pieces are read before the sets are joined.
fn read_sets(alloc: Global, bytes: &[u8]) -> Result<Vec<TaskSet>, Refusal>
    requires { length bytes.now ≤ set_limit }
    ensures read { IfOk result (λ sets. ReadsSets bytes.now sets.items) }
    ensures some { IfOk result (λ sets. 1 ≤ length sets.items) }
    ensures refused { IfErr result (RefusesPieces bytes.now) }
{
    let pieces = cut(alloc, bytes)?;
    let mut sets = Vec::new(alloc);
    read_pieces(alloc, bytes, &pieces, &mut sets)?;
    Ok(sets)
}

// Adds the sets of the pieces of a text.
fn read_pieces(
    alloc: Global,
    bytes: &[u8],
    pieces: &Pieces,
    sets: &mut Vec<TaskSet>,
) -> Result<(), Refusal>
    requires few { length bytes.now ≤ set_limit }
    requires each { map (bytes_in bytes.now) pieces.now ≡ pieces_of bytes.now }
    requires within { All (IsWithin bytes.now) pieces.now }
    requires none { sets.old.items ≡ [] }
    ensures read { OnOk result (ReadsSets bytes.now sets.new.items) }
    ensures some { OnOk result (1 ≤ length sets.new.items) }
    ensures refused { IfErr result (RefusesPieces bytes.now) }
{
    pieces_law();
    for j in 0..pieces.count() {
        let (start, end) = pieces.piece(j);
        let set = read_piece(alloc, j, bytes_in(bytes, start, end))?;
        sets.push(set)?;
    }
    Ok(())
}

// The bytes from `start` to `end`.
fn bytes_in(bytes: &[u8], start: usize, end: usize) -> &[u8]
    requires order { start ≤ end }
    requires within { end ≤ length bytes.now }
    ensures { result.now ≡ slice_range bytes.now start end }
{
    &bytes[start..end]
}

// The set of piece j.
fn read_piece(alloc: Global, j: u32, piece: &[u8]) -> Result<TaskSet, Refusal>
    requires { length piece.now ≤ set_limit }
    ensures read { IfOk result (λ set. set_read_from piece.now ≡ Ok set) }
    ensures refused { IfErr result (RefusesPiece j piece.now) }
{
    match read_set(alloc, piece) {
        Ok(set) => Ok(set),
        Err(ReadSet::NoMemory) => Err(Refusal::NoMemory),
        Err(refusal) => Err(Refusal::OfMode {
            mode: j,
            refusal: ModeRefusal::BadSet(refusal),
        }),
    }
}

/// Has the gates and the jobs run the schedules of modes, one after the other. In each mode a lane may run up to 32 rounds ahead of
/// the others.
pub(crate) fn run_all<G: Gate + Send, X: Threads + Wait + Sync>(
    rt: &X,
    alloc: Global,
    modes: &Modes,
    kits: &mut Vec<Kit<G>>,
    jobs: &mut Jobs,
) -> Result<ModesRun, Refusal>
    requires ready { IsFreshCrew (crew_of G.Gate ⟦<BoxedJob as Job>⟧ kits.old jobs.old) }
    ensures ran { OnOk result (RanThrough modes.now.modes (crew_of G.Gate ⟦<BoxedJob as Job>⟧ kits.old jobs.old)
        (crew_of G.Gate ⟦<BoxedJob as Job>⟧ kits.new jobs.new)) }
    ensures runs { IfOk result (λ runs. AllZip IsRunOf modes.now.modes runs) }
    ensures stops { IfErr result (StopsInModes modes.now.modes (crew_of G.Gate ⟦<BoxedJob as Job>⟧ kits.old jobs.old)
        (crew_of G.Gate ⟦<BoxedJob as Job>⟧ kits.new jobs.new)) }
    ensures back { AreBack (crew_of G.Gate ⟦<BoxedJob as Job>⟧ kits.old jobs.old)
        (crew_of G.Gate ⟦<BoxedJob as Job>⟧ kits.new jobs.new) }
{
    table_law();
    let _are_modes = modes.count();
    match run_modes(rt, alloc, modes, USUAL_WINDOW, kits, jobs) {
        Ok(run) => Ok(run),
        Err(ModesFault::Gate { mode, row, .. }) => Err(Refusal::OfMode {
            mode,
            refusal: ModeRefusal::GateFault {
                row,
                name: name_at(modes.plan(mode).set(), row.leaf),
            },
        }),
        Err(ModesFault::Job { mode, row, .. }) => Err(Refusal::OfMode {
            mode,
            refusal: ModeRefusal::JobFault {
                row,
                name: name_at(modes.plan(mode).set(), row.leaf),
            },
        }),
        Err(ModesFault::NoMemory) => Err(Refusal::NoMemory),
    }
}
