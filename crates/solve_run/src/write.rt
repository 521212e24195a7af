ghost use Rattle.std.specs.Prelude.{◌≡◌, ◌<◌, ◌≤◌, ◌+◌, ◌++◌, length, take, drop, OnOk, OnErr, IfOk, IfErr, option_map};
ghost use Rattle.pay_outside.specs.Counts.{Rose};

use pay_outside::{Sink, SinkFault};

/// Puts the whole text, offering the whole rest each time. On a fault it answers how many bytes were taken.
pub(crate) fn put_all<K: Sink>(sink: &mut K, text: &[u8]) -> Result<(), u64>
    ensures whole { OnOk result (K.taken sink.new ≡ option_map (λ t. t ++ text.now) (K.taken sink.old)) }
    ensures within { IfErr result (λ n. n < length text.now) }
    ensures part { IfErr result (λ n. K.taken sink.new ≡ option_map (λ t. t ++ take n text.now) (K.taken sink.old)) }
    ensures cause { IfErr result (λ _. Rose (K.faults sink.old) (K.faults sink.new)) }
{
    let mut written = 0;
    while written < text.len() {
        match put_rest(sink, text, written) {
            Ok(n) => written += n,
            Err(_) => return Err(written as u64),
        }
    }
    Ok(())
}

/// Offers what is left of the text behind its first bytes.
fn put_rest<K: Sink>(sink: &mut K, text: &[u8], written: usize) -> Result<usize, SinkFault>
    requires { written < length text.now }
    ensures some { IfOk result (λ n. 0 < n) }
    ensures within { IfOk result (λ n. written + n ≤ length text.now) }
    ensures took { IfOk result (λ n. K.taken sink.new ≡ option_map (λ t. t ++ take n (drop written text.now)) (K.taken sink.old)) }
    ensures failed { OnErr result (K.taken sink.new ≡ K.taken sink.old) }
    ensures cause { OnErr result (Rose (K.faults sink.old) (K.faults sink.new)) }
    ensures grow { K.faults sink.old ≤ K.faults sink.new }
{
    sink.put(&text[written..])
}
