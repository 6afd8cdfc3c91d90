// What each line does to the program's state.
ghost use Rattle.std.specs.Prelude.{◌≡◌, true, ◌+◌, ◌≤◌, length, IfOk};
ghost use Rattle.frames.specs.Held.{MapRoom, Within};
ghost use Rattle.frames.specs.Stages.{Goes, Starts, TookEnd, TookLine, TookUnended, goes, stage_by};
ghost use Rattle.frames.specs.Steps.{most_lines};
ghost use Rattle.frames.specs.workings.Held.{Kept, Leaves, Next};
ghost use Rattle.frames.specs.workings.Judging.{Halted, Takes};

use crate::answering::ask;
use crate::loading::{take_arc, take_head};
use crate::{Areas, Phase, State};
use hexlines::Writer;
use readings::{MOST_DRIVE, read_line};
use road::Refusal;

// The most lines that are taken.
const MOST_LINES: usize = 65535;

// The state before the first line.
pub fn first() -> State
    ensures { Starts result }
{
    State {
        phase: Phase::Begun,
        lines: 0,
    }
}

// Prints a refusal, and the program stops.
fn stop(r: Refusal, line: usize, out: &mut Writer) -> State
    requires room { out.old.at + 9 ≤ length out.old.buf.now }
    requires line_bound { line ≤ most_lines }
    ensures { Halted r line result out.old out.new }
{
    out.refusal(u8::from(r), line);
    State {
        phase: Phase::Stopped,
        lines: line,
    }
}

// What the line does, by the phase.
fn step(phase: Phase, bytes: &[u8], areas: &mut Areas, out: &mut Writer) -> Result<Phase, Refusal>
    requires going { goes phase ≡ true }
    requires within { Within phase }
    requires room { MapRoom out.old }
    ensures leaves { Leaves (Takes (stage_by phase areas.old) bytes.now) (λ p. stage_by p areas.new) result out.old out.new }
    ensures kept { IfOk result (Kept (Next phase)) }
{
    // Fixed memory: no drive of a frame has more nodes.
    let mut nodes = [0u32; MOST_DRIVE];
    let line = read_line(bytes, &mut nodes).ok_or(Refusal::Line)?;
    match phase {
        Phase::Begun => take_head(line, areas, out),
        Phase::Loading(load) => take_arc(load, line, areas, out),
        Phase::Asking(map) => {
            ask(map, line, &nodes, areas, out)?;
            Ok(phase)
        }
        // Never met: the phase goes on (`going`).
        Phase::Stopped => Err(Refusal::Line),
    }
}

// Takes the next line, without its line feed. Goes stands as a clause: a state that has stopped is a
// state too.
pub fn take_line(s: State, bytes: &[u8], areas: &mut Areas, out: &mut Writer) -> State
    requires goes { Goes s }
    requires room { MapRoom out.old }
    ensures { TookLine s areas.old bytes.now result areas.new out.old out.new }
{
    if s.lines == MOST_LINES {
        return stop(Refusal::Line, MOST_LINES, out);
    }
    let lines = s.lines + 1;
    match step(s.phase, bytes, areas, out) {
        Ok(phase) => State { phase, lines },
        Err(r) => stop(r, lines, out),
    }
}

// Takes bytes, at least one, that no line feed ends: what they are plays no part.
pub fn take_unended(s: State, out: &mut Writer) -> State
    requires goes { Goes s }
    requires room { out.old.at + 9 ≤ length out.old.buf.now }
    ensures { TookUnended s result out.old out.new }
{
    stop(Refusal::Line, (s.lines + 1).min(MOST_LINES), out)
}

// Takes the end of the input. While lines are missing it comes early: none of them is beyond 65,535.
pub fn take_end(s: State, out: &mut Writer) -> State
    requires goes { Goes s }
    requires room { out.old.at + 9 ≤ length out.old.buf.now }
    ensures { TookEnd s result out.old out.new }
{
    match s.phase {
        Phase::Begun | Phase::Loading(_) => stop(Refusal::Line, s.lines + 1, out),
        Phase::Asking(_) | Phase::Stopped => State {
            phase: Phase::Stopped,
            lines: s.lines,
        },
    }
}
