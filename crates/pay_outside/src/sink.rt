// A sink: what text is written to.
ghost use Rattle.std.specs.Prelude.{◌≡◌, ℕ, ◌<◌, ◌≤◌, ◌++◌, List, length, take, Option, IfOk, OnErr, option_map};
ghost use Rattle.pay_outside.specs.Counts.{Rose};

use thiserror::Error;

/// Why a put took nothing.
#[derive(Clone, Copy, Debug, PartialEq, Eq, Error)]
pub enum SinkFault {
    #[error("the text can't be written")]
    Failed,
}

/// What bytes are written to. It keeps a count of faults that never falls, starts at 0 and stands still at 2^64 - 1.
pub trait Sink {
    /// The bytes taken so far, where the sink tells them.
    ghost taken: { Self → Option (List ℕ) };

    /// The count of faults.
    ghost faults: { Self → ℕ };

    /// Takes the piece or a first part of it, and answers of how many bytes. Of a piece that isn't empty it takes at
    /// least one byte. Where it fails it has taken nothing.
    fn put(&mut self, piece: &[u8]) -> Result<usize, SinkFault>
        ensures count { IfOk result (λ n. n ≤ length piece.now) }
        ensures progress { 0 < length piece.now → IfOk result (λ n. 0 < n) }
        ensures empty { length piece.now ≡ 0 → result ≡ Ok 0 }
        ensures took { IfOk result (λ n. taken self.new ≡ option_map (λ t. t ++ take n piece.now) (taken self.old)) }
        ensures failed { OnErr result (taken self.new ≡ taken self.old) }
        ensures cause { OnErr result (Rose (faults self.old) (faults self.new)) }
        ensures faults_grow { faults self.old ≤ faults self.new };
}
