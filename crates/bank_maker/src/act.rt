//! Who does what in a script, in order.

ghost use Rattle.std.specs.Prelude.{◌≡◌, ◌-◌, ◌≤◌, ◌++◌, map, min, IfOk, OnOk};
ghost use Rattle.std.specs.Option.{option_to_list};
ghost use Rattle.std.specs.List.{range_with_len};
ghost use Rattle.bank_maker.specs.declared.act.Act.TheVariants.{Begins};
ghost use Rattle.bank_maker.specs.Scripts.{act_of, step_acts, group_acts, acts};

use exam_edge::Memory;
use std::alloc::Global;

/// A request without what is drawn for it.
#[derive(Clone, Copy, Debug, PartialEq, Eq)]
pub enum Act {
    /// A session begins.
    Begins(u32),
    /// A session answers at a step.
    Answers { session: u32, step: u16 },
    /// A session is closed.
    Closes(u32),
}

/// What a session does at a step.
fn act_of(sessions: u32, session: u32, step: u16) -> Option<Act>
    requires few { sessions ≤ 200 }
    requires within { session ≤ 200 }
    ensures { result ≡ act_of sessions session step }
{
    if session + 1 < sessions || step < 10 {
        Some(Act::Answers { session, step })
    } else if step == 10 {
        Some(Act::Closes(session))
    } else {
        None
    }
}

/// Appends an act, if there is one.
fn push_act(acts: &mut Vec<Act>, act: Option<Act>) -> Result<(), Memory>
    ensures { OnOk result (acts.new.items ≡ acts.old.items ++ option_to_list act) }
{
    if let Some(act) = act {
        acts.push(act)?;
    }
    Ok(())
}

/// Appends the acts of the sessions from `first` to before `end` at a step.
fn push_step(
    acts: &mut Vec<Act>,
    sessions: u32,
    first: u32,
    end: u32,
    step: u16,
) -> Result<(), Memory>
    requires few { sessions ≤ 200 }
    requires order { first ≤ end }
    requires end { end ≤ sessions }
    requires group { end - first ≡ min 10 (sessions - first) }
    ensures { OnOk result (acts.new.items ≡ acts.old.items ++ step_acts sessions first step) }
{
    for session in first..end {
        push_act(acts, act_of(sessions, session, step))?;
    }
    Ok(())
}

/// Appends the beginnings of the sessions from `first` to before `end`.
fn push_beginnings(acts: &mut Vec<Act>, first: u32, end: u32) -> Result<(), Memory>
    requires { first ≤ end }
    ensures { OnOk result (acts.new.items
        ≡ acts.old.items ++ map (λ session. Begins session) (range_with_len first (end - first))) }
{
    for session in first..end {
        acts.push(Act::Begins(session))?;
    }
    Ok(())
}

/// Appends the acts of the group that begins with session `first`.
fn push_group(acts: &mut Vec<Act>, sessions: u32, first: u32) -> Result<(), Memory>
    requires few { sessions ≤ 200 }
    requires first { first ≤ sessions }
    ensures { OnOk result (acts.new.items ≡ acts.old.items ++ group_acts sessions first) }
{
    let end = first + u32::min(10, sessions - first);
    push_beginnings(acts, first, end)?;
    for step in 0..20 {
        push_step(acts, sessions, first, end, step)?;
    }
    Ok(())
}

/// The acts of a drill of so many sessions.
pub fn acts_of(alloc: Global, sessions: u32) -> Result<Vec<Act>, Memory>
    requires { sessions ≤ 200 }
    ensures { IfOk result (λ v. v.items ≡ acts sessions) }
{
    let mut acts = Vec::new(alloc);
    for group in 0..(sessions + 9) / 10 {
        push_group(&mut acts, sessions, 10 * group)?;
    }
    Ok(acts)
}
