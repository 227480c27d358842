// Parts of the step table's rows: those that lead to U0, those that differ from table to table, and those that hold only where something is true.
#![tactic(auto)]

ghost use Rattle.std.specs.Prelude.{◌≡◌, cond};
ghost use Rattle.codes.specs.declared.state.State.TheVariants.{U0, U2, U3};
ghost use Rattle.codes.specs.declared.protocol.Protocol.TheVariants.{Broadcast};
ghost use Rattle.context.specs.Context.{cleared};
ghost use Rattle.transitions.specs.declared.Decision.TheVariants.{NoStep};
ghost use Rattle.transitions.specs.Table.{asking, inviting, rows_of, happened_in};
ghost use Rattle.row_parts.specs.Asked.{originating};

use codes::action;
use codes::state::State;
use context::Context;
use timer::Timer;
use transitions::{Decision, Memory, Note, Send, Stores, Taken};
use version::Table;

// The rows that lead to U0 differ by their actions: none, ..
pub const ENDS: Decision = Decision::Take(Taken {
    next: State::U0,
    actions: action::NONE,
    sends: Send::Nothing,
    stops: None,
    sets: None,
    stores: Stores::Nothing,
    memory: Memory::Keep,
    note: Note::Nothing,
});

// .. 8 abort, ..
pub const ENDS_ABORTING: Decision = Decision::Take(Taken {
    next: State::U0,
    actions: action::ABORT,
    sends: Send::Nothing,
    stops: None,
    sets: None,
    stores: Stores::Nothing,
    memory: Memory::Keep,
    note: Note::Nothing,
});

// .. 16 release, ..
pub const ENDS_RELEASING: Decision = Decision::Take(Taken {
    next: State::U0,
    actions: action::RELEASE,
    sends: Send::Nothing,
    stops: None,
    sets: None,
    stores: Stores::Nothing,
    memory: Memory::Keep,
    note: Note::Nothing,
});

// .. 1 inform higher layers and 8 abort.
pub const ENDS_INFORMING_ABORTING: Decision = Decision::Take(Taken {
    next: State::U0,
    actions: action::INFORM + action::ABORT,
    sends: Send::Nothing,
    stops: None,
    sets: None,
    stores: Stores::Nothing,
    memory: Memory::Keep,
    note: Note::Nothing,
});

// What a terminate request remembers: from the second table on the state that it is asked from.
fn asking(table: Table) -> Memory
    ensures { result ≡ asking table }
{
    match table {
        Table::First | Table::Group => Memory::Keep,
        Table::Second | Table::Third => Memory::Remember,
    }
}

// 4, terminate, in U1 and U2: where ORIG is true.
#[tactic(auto, unfolding(transitions::specs::Table::happened_in))]
pub fn terminated(table: Table, orig: bool) -> Decision
    ensures { result ≡ happened_in (rows_of Broadcast table) U2 (originating orig) 4 }
{
    let memory = asking(table);
    if orig {
        return Decision::Take(Taken {
            next: State::U5,
            actions: action::NONE,
            sends: Send::TerminationRequest,
            stops: Some(Timer::MmEst),
            sets: Some(Timer::Term),
            stores: Stores::Nothing,
            memory,
            note: Note::Nothing,
        });
    }
    Decision::NoStep
}

// A row that holds only where something is true.
pub fn where_true(holds: bool, taken: Decision) -> Decision
    ensures { result ≡ cond holds taken NoStep }
{
    if holds {
        return taken;
    }
    Decision::NoStep
}

// The timer of an invitation, if it has one: from the third table on T_pres.
fn inviting(table: Table) -> Option<Timer>
    ensures { result ≡ inviting table }
{
    match table {
        Table::First | Table::Second | Table::Group => None,
        Table::Third => Some(Timer::Pres),
    }
}

// 10, broadcast notified, in U0. Its row asks for nothing of the context.
#[tactic(auto, unfolding(transitions::specs::Table::happened_in))]
pub fn notified(table: Table) -> Decision
    ensures { result ≡ happened_in (rows_of Broadcast table) U0 cleared 10 }
{
    let sets = inviting(table);
    Decision::Take(Taken {
        next: State::U3,
        actions: action::INFORM,
        sends: Send::Nothing,
        stops: None,
        sets,
        stores: Stores::ValueAndReference,
        memory: Memory::Keep,
        note: Note::Nothing,
    })
}

// 3, join, in U3. Its row asks for nothing of the context.
#[tactic(auto, unfolding(transitions::specs::Table::happened_in))]
pub fn joined(table: Table) -> Decision
    ensures { result ≡ happened_in (rows_of Broadcast table) U3 cleared 3 }
{
    let stops = inviting(table);
    Decision::Take(Taken {
        next: State::U4,
        actions: action::REQUEST_GROUP_RECEIVE,
        sends: Send::Nothing,
        stops,
        sets: Some(Timer::ConnReq),
        stores: Stores::Nothing,
        memory: Memory::Keep,
        note: Note::Nothing,
    })
}

// 19, expiry of T_pres: the invitation is forgotten. The first two tables have no such row.
#[tactic(auto, unfolding(transitions::specs::Table::happened_in))]
pub fn forgotten(table: Table, context: Context) -> Decision
    ensures { result ≡ happened_in (rows_of Broadcast table) U3 context 19 }
{
    let timers = context.timers;
    match table {
        Table::First | Table::Second | Table::Group => Decision::NoStep,
        Table::Third => where_true(timers.pres, ENDS),
    }
}
