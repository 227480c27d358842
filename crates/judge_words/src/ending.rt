// In which state an accepted log ends. One that was cut behind an entry is accepted too: that something is missing shows here.
use crate::refusal::number_of;
use context::Context;
use saying::describe::{write_line, write_state_name};
use saying::{STDOUT_FILENO, tell};

pub(crate) fn tell_ending(context: Context) {
    let number = number_of(context);
    tell(b"the log ends in ");
    write_state_name(STDOUT_FILENO, number);
    tell(b", ");
    write_line(
        STDOUT_FILENO,
        b"idle\n\
          waiting for a connection\n\
          calling\n\
          with its own call on\n\
          notified\n\
          joining\n\
          ending a call\n\
          receiving\n\
          on a link of its own\n\
          done talking\n\
          listening\n\
          asking to talk\n\
          talking\n\
          cut off\n",
        number,
    );
    if 0 < number {
        tell(b": how the call went on is not in it");
    }
    tell(b"\n");
}
