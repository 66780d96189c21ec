// Reading: the log's length, one entry, one record, one clock, and the log copied to a lent buffer. The state stays with the caller.
ghost use Rattle.std.specs.Prelude.{◌≡◌, slice_get, ok_or};
ghost use Rattle.rules.specs.declared.Refusal.TheVariants.{NoSuchNumber};
ghost use Rattle.rules.specs.Reading.{read_length, read_entry, read_record, read_clock, copy_log};
ghost use Rattle.referee.specs.View.{view, copied};

use super::Table;
use rules::{Record, Refusal};

// What has a number in a list, counted from 0; 14 where nothing has it. There is no From of a u32 to a usize.
fn numbered<T: Copy>(list: &[T], i: u32) -> Result<T, Refusal>
    ensures { result ≡ ok_or (slice_get list.now i) NoSuchNumber }
{
    list.get(i as usize).copied().ok_or(Refusal::NoSuchNumber)
}

impl Table {
    // How many entries has the log? At most 256, so the cast is proved to fit; likewise in `copy_log`.
    #[tactic(auto, unfolding(rules::specs::Reading::read_length))]
    pub fn log_length(self) -> Result<u32, Refusal>
        ensures { result ≡ read_length (view self) }
    {
        Ok(self.tested()?.log.len() as u32)
    }

    // Which record is entry i of the log, counted from 0?
    #[tactic(auto, unfolding(rules::specs::Reading::read_entry))]
    pub fn log_entry(self, i: u32) -> Result<u32, Refusal>
        ensures { result ≡ read_entry (view self) i }
    {
        numbered(self.tested()?.log, i)
    }

    // What is record i?
    #[tactic(auto, unfolding(rules::specs::Reading::read_record))]
    pub fn record(self, i: u32) -> Result<Record, Refusal>
        ensures { result ≡ read_record (view self) i }
    {
        numbered(self.tested()?.records, i)
    }

    // What does the clock of a node say?
    #[tactic(auto, unfolding(rules::specs::Reading::read_clock, rules::specs::Nodes::nodes))]
    pub fn clock(self, node: u32) -> Result<u32, Refusal>
        ensures { result ≡ read_clock (view self) node }
    {
        numbered(&self.tested()?.clocks, node)
    }

    // Copies the log to the buffer's first places and answers its length. Further places keep what they had; refused, all do.
    #[tactic(auto, using(logs::proofs::Laid::laid_is), unfolding(rules::specs::Reading::copy_log))]
    pub fn copy_log(self, buffer: &mut [u32]) -> Result<u32, Refusal>
        ensures { copied buffer.new result ≡ copy_log (view self) buffer.old }
    {
        let log = self.tested()?.log;
        if buffer.len() < log.len() {
            return Err(Refusal::BufferShort);
        }
        logs::copy(log, buffer);
        Ok(log.len() as u32)
    }
}
