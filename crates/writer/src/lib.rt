// A case written back: every record into its own bytes of the lent buffer.
#![tactic(auto)]

ghost use Rattle.std.specs.Prelude.{◌≡◌, length};
ghost use Rattle.items.specs.File.{file_of};
ghost use Rattle.collector.specs.Cases.{items_of};
ghost use Rattle.collector.specs.Sound.{Sound};
ghost use Rattle.writer.specs.Written.{written_of, buffer_after};

use answers::WriteError;
use collector::Case;
use kinds::Kind;
use record::Record;

// Writes a case at the start of a buffer, where the buffer has room for all of it.
pub fn write(c: Case, buf: &mut [u8]) -> Result<usize, WriteError>
    requires { Sound c }
    ensures value { result ≡ written_of (file_of (items_of c)) (length buf.old) }
    ensures buf_after { buf.new ≡ buffer_after (file_of (items_of c)) buf.old }
{
    let size = c.count.total() * Record::LENGTH;
    let is_short = buf.len() < size;
    if is_short {
        return Err(WriteError::TooShort);
    }
    let mut at = 0;
    for rank in 0..Kind::COUNT {
        let kind = Kind::at(rank);
        for i in 0..c.count.of(kind) {
            let here = &mut buf[at..];
            match kind {
                Kind::State => record_writer::write_state(here, c.states[i]),
                Kind::Weights => record_writer::write_weights(here, c.weights[i]),
                Kind::Guard => record_writer::write_guard(here, c.guards[i]),
                Kind::Move => record_writer::write_move(here, c.moves[i]),
                Kind::Sentence => record_writer::write_sentence(here, c.sentences[i]),
                Kind::Place => record_writer::write_place(here, c.places[i]),
            }
            at += Record::LENGTH;
        }
    }
    Ok(size)
}
