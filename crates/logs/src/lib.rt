// The log copied to a lent buffer.
#![tactic(auto)]

ghost use Rattle.std.specs.Prelude.{◌≡◌};
ghost use Rattle.logs.specs.Copy.{laid};

// Copies the log's entries, as many as there are, to the buffer's first places, as many as it has.
#[tactic(auto, using(crate::proofs::Laid::laid_first))]
pub fn copy(log: &[u32], buffer: &mut [u32])
    ensures { buffer.new ≡ laid log.now buffer.old }
{
    let n = log.len().min(buffer.len());
    buffer[..n].copy_from_slice(&log[..n]);
}
