// Which contexts are fit, and which parameters are consistent with a state, by a step table.
#![tactic(auto)]

ghost use Rattle.std.specs.Prelude.{◌≡◌, false, ◌&&◌};
ghost use Rattle.codes.specs.declared.state.State.TheVariants.{U3, U5};
ghost use Rattle.context.specs.States.{among};
ghost use Rattle.context.specs.Remembered.{is_something};
ghost use Rattle.fitness.specs.Fitness.{obeys, consistent_by, among_choosers, choosers_in, nothing_runs, timers_fit_by, remembered_fit_by, is_silent, talk_fit_by, is_cleared, fit_by};
ghost use Rattle.fitness.specs.Tables.{fitness_of, term_runs, invitation_runs, remembering_states, sub_states, requesting_states, asked_states, choosers_of, group_pending, state_fits};
ghost use Rattle.codes.specs.declared.protocol.Protocol.TheVariants.{Group};
ghost use Rattle.version.specs.declared.Table.TheVariants as Table;

use codes::attributes::Parameters;
use codes::protocol::Protocol;
use codes::state::State;
use context::{Chooser, Context, Remembered, Talk};
use timer::Timers;
use version::Table;

// Whether the parameters are consistent with the state, 6.1.2.1.11.
pub fn is_consistent(table: Table, state: State, parameters: Parameters) -> bool
    ensures { result ≡ consistent_by (fitness_of table) state parameters }
{
    fits_state(table, state, parameters.orig, parameters.comm)
}

// The same of the two parameters that a state asks about. They come one by one, since four that are passed as one are first put together.
#[tactic(auto, unfolding(crate::specs::Fitness::consistent_by, crate::specs::Tables::fitness_of))]
fn fits_state(table: Table, state: State, orig: bool, comm: bool) -> bool
    ensures { result ≡ consistent_by (fitness_of table) state (record { orig = orig; comm = comm; datt = false; uatt = false }) }
{
    match state {
        State::U0 | State::U2r | State::U2nc => !comm,
        State::U3 | State::U4 | State::U6 => !orig & !comm,
        _ => true,
    }
}

// Whether T_term may run, or not, in U5.
fn term_fits(table: Table, running: bool) -> bool
    ensures { result ≡ obeys (term_runs table) running }
{
    match table {
        Table::First => true,
        Table::Second | Table::Third | Table::Group => running,
    }
}

// Whether T_pres may run, or not, in U3.
fn invitation_fits(table: Table, running: bool) -> bool
    ensures { result ≡ obeys (invitation_runs table) running }
{
    match table {
        Table::First | Table::Second | Table::Group => !running,
        Table::Third => running,
    }
}

// Whether no timer runs.
fn none_run(timers: Timers) -> bool
    ensures { result ≡ nothing_runs timers }
{
    !timers.mmest & (!timers.term & (!timers.connreq & (!timers.nochannel & !timers.pres)))
}

// Whether the timers that run are those of U3.
fn timers_fit_u3(table: Table, timers: Timers) -> bool
    ensures { result ≡ timers_fit_by (fitness_of table) U3 timers }
{
    let invitation = invitation_fits(table, timers.pres);
    !timers.mmest & (!timers.term & (!timers.connreq & (!timers.nochannel & invitation)))
}

// Whether the timers that run are those of U5.
fn timers_fit_u5(table: Table, timers: Timers) -> bool
    ensures { result ≡ timers_fit_by (fitness_of table) U5 timers }
{
    let term = term_fits(table, timers.term);
    !timers.mmest & (term & (!timers.connreq & (!timers.nochannel & !timers.pres)))
}

// Whether something is remembered.
fn is_something(remembered: Remembered) -> bool
    ensures { result ≡ is_something remembered }
{
    !matches!(remembered, Remembered::Nothing)
}

// Whether the table has something remembered in a state.
fn remembers(table: Table, state: State) -> bool
    ensures { result ≡ among state (remembering_states table) }
{
    match table {
        Table::First => false,
        Table::Second | Table::Third | Table::Group => matches!(state, State::U5),
    }
}

// Whether the state is a sub-state of U2.
fn is_sub_state(state: State) -> bool
    ensures { result ≡ among state sub_states }
{
    matches!(
        state,
        State::U2sl | State::U2wr | State::U2r | State::U2ws | State::U2sr | State::U2nc
    )
}

// Whether the table has the state.
#[tactic(auto, unfolding(crate::specs::Tables::fitness_of))]
fn has_state(table: Table, state: State) -> bool
    ensures { result ≡ among state (fitness_of table).states }
{
    match version::protocol(table) {
        Protocol::Broadcast => !is_sub_state(state),
        Protocol::Group => !matches!(state, State::U2 | State::U6),
    }
}

// Whether the table has the state, and the two parameters are consistent with it.
fn state_fits(table: Table, state: State, orig: bool, comm: bool) -> bool
    ensures { result ≡ state_fits table state (record { orig = orig; comm = comm; datt = false; uatt = false }) }
{
    let known = has_state(table, state);
    let consistent = fits_state(table, state, orig, comm);
    known & consistent
}

// Whether something is remembered exactly where the table has it so, and is a state of the table.
fn remembered_fits(table: Table, state: State, remembered: Remembered) -> bool
    ensures { result ≡ remembered_fit_by (fitness_of table) state remembered }
{
    let something = is_something(remembered);
    let from = context::returning(remembered, state);
    let known = has_state(table, from);
    if remembers(table, state) {
        return something & known;
    }
    !something
}

// Whether nothing of a group call is kept.
fn is_silent(talk: Talk) -> bool
    ensures { result ≡ is_silent talk }
{
    let none = matches!(talk.chooser, Chooser::Neither);
    none & (!talk.termination & (!talk.status & !talk.awaiting))
}

// Whether who chose the value may have, in a group call's state.
fn chooser_fits(state: State, chooser: Chooser) -> bool
    ensures { result ≡ among_choosers chooser (choosers_in state (choosers_of Group)) }
{
    match state {
        State::U0 | State::U2 | State::U5 | State::U6 => matches!(chooser, Chooser::Neither),
        State::U0p | State::U1 => matches!(chooser, Chooser::Us),
        State::U3 | State::U4 => matches!(chooser, Chooser::Cell),
        _ => !matches!(chooser, Chooser::Neither),
    }
}

// Whether a termination request may be pending in the state.
fn may_request(state: State) -> bool
    ensures { result ≡ among state (requesting_states Group) }
{
    matches!(state, State::U1) | is_sub_state(state)
}

// Whether a STATUS may be.
fn may_be_asked(state: State) -> bool
    ensures { result ≡ among state (asked_states Group) }
{
    !matches!(state, State::U0 | State::U2 | State::U6)
}

// Whether what is pending in a group call, and what is awaited, may be so in the state.
fn pending_fits(state: State, orig: bool, comm: bool, talk: Talk) -> bool
    ensures { result ≡ group_pending state (record { orig = orig; comm = comm; datt = false; uatt = false }) talk }
{
    let within = is_sub_state(state);
    let requesting = may_request(state);
    let asked = may_be_asked(state);
    let request = !talk.termination | (requesting & !(orig & comm));
    let status = !talk.status | (asked & !comm);
    let value = !talk.awaiting | (within & !orig);
    request & (status & value)
}

// Whether what a group call keeps is as its table has it.
fn group_talk_fits(context: Context) -> bool
    ensures { result ≡ talk_fit_by (fitness_of Table.Group) context }
{
    let state = context.state;
    let remembered = context.remembered;
    let talk = context.talk;
    let chooser = talk.chooser;
    let from = context::returning(remembered, state);
    let chosen = chooser_fits(from, chooser);
    let pending = pending_fits(
        state,
        context.parameters.orig,
        context.parameters.comm,
        talk,
    );
    chosen & pending
}

// Whether what a group call keeps is as the table has it. A broadcast call keeps none of it.
fn talk_fits(table: Table, context: Context) -> bool
    ensures { result ≡ talk_fit_by (fitness_of table) context }
{
    let talk = context.talk;
    match table {
        Table::First | Table::Second | Table::Third => is_silent(talk),
        Table::Group => group_talk_fits(context),
    }
}

// Whether the timers that run are those of the state.
#[tactic(auto, unfolding(crate::specs::Fitness::timers_fit_by, crate::specs::Tables::fitness_of))]
fn timers_fit(table: Table, state: State, timers: Timers) -> bool
    ensures { result ≡ timers_fit_by (fitness_of table) state timers }
{
    match state {
        State::U0p => timers.mmest
            & (!timers.term & (!timers.connreq & (!timers.nochannel & !timers.pres))),
        State::U1 => !timers.term & (!timers.connreq & (!timers.nochannel & !timers.pres)),
        State::U3 => timers_fit_u3(table, timers),
        State::U4 => !timers.mmest
            & (!timers.term & (timers.connreq & (!timers.nochannel & !timers.pres))),
        State::U5 => timers_fit_u5(table, timers),
        State::U6 => !timers.mmest & (!timers.term & (!timers.connreq & !timers.pres)),
        State::U2nc => !timers.mmest
            & (!timers.term & (!timers.connreq & (timers.nochannel & !timers.pres))),
        _ => none_run(timers),
    }
}

// Whether everything beside the state is as in the cleared context.
fn is_cleared(context: Context) -> bool
    ensures { result ≡ is_cleared context }
{
    let parameters = context.parameters;
    let timers = context.timers;
    let reference = context.reference;
    let none_set = !parameters.orig & (!parameters.comm & (!parameters.datt & !parameters.uatt));
    let none_runs = none_run(timers);
    let zero = (reference.first == 0)
        & ((reference.second == 0) & ((reference.third == 0) & (reference.fourth == 0)));
    let remembered = context.remembered;
    let something = is_something(remembered);
    let talk = context.talk;
    let silent = is_silent(talk);
    none_set & (none_runs & ((context.value == 0) & (zero & (!something & silent))))
}

// Whether timers, what is remembered and what a group call keeps are as the table has them.
fn rest_fits(table: Table, context: Context) -> bool
    ensures { result ≡ (timers_fit_by (fitness_of table) context.state context.timers && (remembered_fit_by (fitness_of table) context.state context.remembered && talk_fit_by (fitness_of table) context)) }
{
    let state = context.state;
    let timers = context.timers;
    let remembered = context.remembered;
    let timely = timers_fit(table, state, timers);
    let minded = remembered_fits(table, state, remembered);
    let kept = talk_fits(table, context);
    timely & (minded & kept)
}

// Whether the context is one that a call can be in. What U0 alone asks is looked at in U0 alone.
pub fn is_fit(table: Table, context: Context) -> bool
    ensures { result ≡ fit_by (fitness_of table) context }
{
    let state = context.state;
    if !state_fits(
        table,
        state,
        context.parameters.orig,
        context.parameters.comm,
    ) {
        return false;
    }
    if 6 < context.value {
        return false;
    }
    match state {
        State::U0 => is_cleared(context) & rest_fits(table, context),
        _ => rest_fits(table, context),
    }
}
