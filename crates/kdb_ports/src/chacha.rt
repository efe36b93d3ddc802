//! Random bytes of the cipher ChaCha20, from a seed.

ghost use Rattle.std.specs.Prelude.{◌≡◌, ◌↔◌, ℕ, Option, Some, None, length, Contains};
ghost use Rattle.std.specs.Prelude.{IsErr, IsTrue, OnErr, OnOk, IfSome, option_map};
ghost use Rattle.rand_chacha.specs.ChaCha.{key_of};
ghost use Rattle.kdb_base.specs.Causes.{HasCause};
ghost use Rattle.kdb_ports.specs.Told.{StandsIn, later_bytes};
ghost use Rattle.kdb_ports.specs.Memory.{counted_up};
ghost use Rattle.kdb_ports.specs.ChaCha.{key_byte, chacha_bytes, untold_stream, IsDrawn};

use crate::entropies::{DrawFailed, Entropy};
use kdb_base::Fails;
use rand_chacha::ChaCha20Rng;
use rand_core::SeedableRng;
use rand_core::utils::NextWord;
use std::marker::Model;
use std::random::RandomSource;

/// The key stream of a seed, byte by byte.
#[derive(Drop)]
struct KeyStream {
    words: ChaCha20Rng,
    /// The bytes of the last word, and how many of them were given.
    word: [u8; 4],
    given: usize,
}

impl Model for KeyStream {
    ghost use Rattle.kdb_ports.specs.ChaCha.{StreamPlace, StandsAt, drawn_in};

    ghost Value = { StreamPlace };

    ghost view = { λ s. record { key = s.words.key; drawn = drawn_in s.words s.given } };

    ghost invariant = { λ s. StandsAt s.words s.word s.given };
}

impl KeyStream {
    /// The stream of a seed, from its first byte on.
    fn new(seed: &[u8; 32]) -> KeyStream
        ensures { result ≡ record { key = key_of seed.now; drawn = 0 } }
    {
        KeyStream {
            words: ChaCha20Rng::from_seed(*seed),
            word: [0; 4],
            given: 4,
        }
    }

    /// The next byte.
    fn next_byte(&mut self) -> u8
        ensures byte { result ≡ key_byte self.old.key self.old.drawn }
        ensures key { self.new.key ≡ self.old.key }
        ensures rest { chacha_bytes self.new.key self.new.drawn
            ≡ later_bytes 1 (chacha_bytes self.old.key self.old.drawn) }
    {
        if self.given == 4 {
            self.word = self.words.next_word().to_le_bytes();
            self.given = 0;
        }
        let byte = self.word[self.given];
        self.given += 1;
        byte
    }

    /// Fills `into` with the next bytes.
    fn fill(&mut self, into: &mut [u8])
        ensures bytes { StandsIn into.new (chacha_bytes self.old.key self.old.drawn) }
        ensures key { self.new.key ≡ self.old.key }
        ensures rest { chacha_bytes self.new.key self.new.drawn
            ≡ later_bytes (length into.old) (chacha_bytes self.old.key self.old.drawn) }
    {
        for byte in into.iter_mut() {
            *byte = self.next_byte();
        }
    }
}

/// An entropy in memory: the bytes of ChaCha20 under a seed. A word of the cipher that a draw does
/// not use up goes on in the next draw.
#[derive(Drop)]
pub struct ChaChaEntropy {
    bytes: KeyStream,
    fails: Fails,
    calls: u64,
    faults: u64,
}

impl Model for ChaChaEntropy {
    ghost use Rattle.kdb_ports.specs.ChaCha.{ChaChaState};

    ghost Value = { ChaChaState };

    ghost view = { λ s.
        record { key = s.bytes.key; drawn = s.bytes.drawn; fails = s.fails; calls = s.calls; faults = s.faults } };
}

impl ChaChaEntropy {
    /// An entropy that gives the bytes of this seed. Its draws of the numbers in `fails` fail.
    pub fn new(seed: &[u8; 32], fails: Fails) -> ChaChaEntropy
        ensures state { result ≡ record { key = key_of seed.now; drawn = 0; fails = fails; calls = 0; faults = 0 } }
        ensures stream { ⟦<ChaChaEntropy as Entropy>⟧.stream result ≡ Some (key_byte (key_of seed.now)) }
    {
        ChaChaEntropy {
            bytes: KeyStream::new(seed),
            fails,
            calls: 0,
            faults: 0,
        }
    }

    /// Counts this call, and answers whether it is to fail.
    fn begin(&mut self) -> bool
        ensures fails { IsTrue result ↔ Contains self.old.fails self.old.calls }
        ensures state { self.new ≡ record self.old { calls = counted_up self.old.calls } }
    {
        let fails = self.fails.contains(self.calls);
        self.calls = self.calls.saturating_add(1);
        fails
    }
}

impl Entropy for ChaChaEntropy {
    ghost stream = { λ s. Some (chacha_bytes s.key s.drawn) };

    ghost faults = { λ s. s.faults };

    /// Gives the next bytes. It fails where its number is among those that are to fail.
    fn draw(&mut self, into: &mut [u8]) -> Result<(), DrawFailed>
        ensures bytes { OnOk result (StandsIn into.new (chacha_bytes self.old.key self.old.drawn)) }
        ensures rest { OnOk result (Some (chacha_bytes self.new.key self.new.drawn)
            ≡ option_map (later_bytes (length into.old)) (Some (chacha_bytes self.old.key self.old.drawn))) }
        ensures err { OnErr result
            (Some (chacha_bytes self.new.key self.new.drawn) ≡ Some (chacha_bytes self.old.key self.old.drawn)) }
        ensures cause { HasCause self.old.faults self.new.faults result }

        ensures fails { IsErr result ↔ Contains self.old.fails self.old.calls }
        ensures calls { self.new.calls ≡ counted_up self.old.calls }
        ensures kept { self.new.fails ≡ self.old.fails }
        ensures key { self.new.key ≡ self.old.key }
        ensures failed { OnErr result (self.new.faults ≡ counted_up self.old.faults) }
        ensures whole { OnOk result (self.new.faults ≡ self.old.faults) }
        ensures untouched { OnErr result (into.new ≡ into.old) }
    {
        if self.begin() {
            self.faults = self.faults.saturating_add(1);
            return Err(DrawFailed);
        }
        self.bytes.fill(into);
        Ok(())
    }
}

/// The bytes of ChaCha20 under a seed of the system's random source. It tells nothing. The first
/// draw takes the seed, and fails where the source gives none; the next draw asks it again.
#[derive(Drop)]
pub struct SeededEntropy<R: RandomSource> {
    runtime: R,
    bytes: Option<KeyStream>,
    faults: u64,
}

impl<R: RandomSource> Model for SeededEntropy<R> {
    ghost use Rattle.kdb_ports.specs.ChaCha.{SeededState};

    ghost Value = { SeededState };

    ghost view = { λ s. record { place = s.bytes; faults = s.faults } };
}

impl<R: RandomSource> SeededEntropy<R> {
    /// An entropy over this source, which is not asked yet.
    pub fn new(runtime: R) -> SeededEntropy<R>
        ensures { result ≡ record { place = None; faults = 0 } }
    {
        SeededEntropy {
            runtime,
            bytes: None,
            faults: 0,
        }
    }
}

/// The stream of a seed of this source, where it gives one.
fn seeded<R: RandomSource>(runtime: &R) -> Option<KeyStream>
    ensures { IfSome result (λ bytes. bytes.drawn ≡ 0) }
{
    let mut seed = [0; 32];
    runtime.fill_bytes(&mut seed).ok()?;
    Some(KeyStream::new(&seed))
}

impl<R: RandomSource> Entropy for SeededEntropy<R> {
    ghost stream = { λ _. untold_stream };

    ghost faults = { λ s. s.faults };

    fn draw(&mut self, into: &mut [u8]) -> Result<(), DrawFailed>
        ensures bytes { OnOk result (IfSome untold_stream (StandsIn into.new)) }
        ensures rest { OnOk result (untold_stream ≡ option_map (later_bytes (length into.old)) untold_stream) }
        ensures err { OnErr result (untold_stream ≡ untold_stream) }
        ensures cause { HasCause self.old.faults self.new.faults result }

        ensures drawn { OnOk result (IsDrawn self.old.place self.new.place into.new) }
        ensures unseeded { OnErr result (self.old.place ≡ None) }
        ensures kept { OnErr result (self.new.place ≡ self.old.place) }
        ensures failed { OnErr result (self.new.faults ≡ counted_up self.old.faults) }
        ensures whole { OnOk result (self.new.faults ≡ self.old.faults) }
        ensures untouched { OnErr result (into.new ≡ into.old) }
    {
        if self.bytes.is_none() {
            self.bytes = seeded(&self.runtime);
        }
        match &mut self.bytes {
            Some(bytes) => {
                bytes.fill(into);
                Ok(())
            }
            None => {
                self.faults = self.faults.saturating_add(1);
                Err(DrawFailed)
            }
        }
    }
}
