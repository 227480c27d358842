// One line of the line protocol. A further command is a crate of its own with a function of the same shape as `answer_step`, and a test here.
use codes::protocol::Protocol;
use fields::malformed;
use judge_command::answer_judge;
use mend_command::answer_mend;
use message_command::read_command::answer_read;
use message_command::write_command::answer_write;
use record_command::answer_record;
use settings_command::answer_settings;
use step_command::answer_step;
use text::output::Output;
use text::words::{part, word_at};
use version::Table;

// A command, of one kind of call where there is one for each.
#[derive(Clone, Copy)]
enum Command {
    Read(Protocol),
    Write(Protocol),
    Step(Table),
    Settings,
    Judge,
    Record(Table),
    Mend,
}

// Answers a line. `octets` is lent for the octets that its words spell.
pub(crate) fn answer_line(
    line: &[u8],
    octets: &mut [u8],
    buffer: &mut [u8],
    output: Output,
) -> Output {
    let Some(word) = word_at(line, 0) else {
        return malformed(buffer, output);
    };
    match command_of(part(line, word.start, word.count)) {
        None => malformed(buffer, output),
        Some(command) => answer_command(command, line, Some(word.next), octets, buffer, output),
    }
}

// The command of a name. The word is looked up first and the command called then: a test and a call by turns would carry every test along to every call.
fn command_of(name: &[u8]) -> Option<Command> {
    match name {
        b"read" => Some(Command::Read(Protocol::Broadcast)),
        b"write" => Some(Command::Write(Protocol::Broadcast)),
        b"step" => Some(Command::Step(version::NEWEST)),
        b"settings" => Some(Command::Settings),
        b"judge" => Some(Command::Judge),
        b"record" => Some(Command::Record(version::NEWEST)),
        b"gread" => Some(Command::Read(Protocol::Group)),
        b"gwrite" => Some(Command::Write(Protocol::Group)),
        b"gstep" => Some(Command::Step(Table::Group)),
        b"grecord" => Some(Command::Record(Table::Group)),
        b"mend" => Some(Command::Mend),
        _ => None,
    }
}

fn answer_command(
    command: Command,
    line: &[u8],
    at: Option<usize>,
    octets: &mut [u8],
    buffer: &mut [u8],
    output: Output,
) -> Output {
    match command {
        Command::Read(protocol) => answer_read(protocol, line, at, octets, buffer, output),
        Command::Write(protocol) => answer_write(protocol, line, at, octets, buffer, output),
        Command::Step(table) => answer_step(table, line, at, octets, buffer, output),
        Command::Settings => answer_settings(line, at, octets, buffer, output),
        Command::Judge => answer_judge(line, at, octets, buffer, output),
        Command::Record(table) => answer_record(table, line, at, octets, buffer, output),
        Command::Mend => answer_mend(line, at, octets, buffer, output),
    }
}
