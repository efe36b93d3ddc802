ghost use Rattle.std.specs.Prelude.{◌≡◌, ℕ, Option, length, IsOk, OnOk, OnErr, IfSome, option_map, replicate};
ghost use Rattle.kdb_base.specs.Causes.{HasCause};
ghost use Rattle.kdb_ports.specs.Told.{StandsIn, later_bytes, zero_stream};

use thiserror::Error;

/// A draw failed. The entropy's count of faults rose.
#[derive(Clone, Copy, Debug, PartialEq, Eq, Error)]
#[error("the draw failed")]
pub struct DrawFailed;

/// Where random bytes come from.
pub trait Entropy {
    /// The bytes that it will give, by their number from here on, where it tells them.
    ghost stream: { Self → Option (ℕ → ℕ) };

    /// How often a draw has failed.
    ghost faults: { Self → ℕ };

    /// Fills `into` with the next random bytes.
    fn draw(&mut self, into: &mut [u8]) -> Result<(), DrawFailed>
        ensures bytes { OnOk result (IfSome (stream self.old) (StandsIn into.new)) }
        ensures rest { OnOk result (stream self.new ≡ option_map (later_bytes (length into.old)) (stream self.old)) }
        ensures err { OnErr result (stream self.new ≡ stream self.old) }
        ensures cause { HasCause (faults self.old) (faults self.new) result };
}

/// An entropy that gives zeros and never fails, for what draws no random bytes.
#[derive(Clone, Copy, Debug)]
pub struct ZeroEntropy;

impl Entropy for ZeroEntropy {
    ghost stream = { λ _. zero_stream };

    ghost faults = { λ _. 0 };

    fn draw(&mut self, into: &mut [u8]) -> Result<(), DrawFailed>
        ensures bytes { OnOk result (StandsIn into.new (λ _. 0)) }
        ensures rest { OnOk result (zero_stream ≡ option_map (later_bytes (length into.old)) zero_stream) }
        ensures err { OnErr result (zero_stream ≡ zero_stream) }
        ensures cause { HasCause 0 0 result }
        ensures ok { IsOk result }
        ensures zeros { into.new ≡ replicate (length into.old) 0 }
    {
        into.fill(0);
        Ok(())
    }
}
