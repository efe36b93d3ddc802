//! The numbers of a policy.
ghost use Rattle.std.specs.Prelude.{◌≡◌, ◌≤◌, IsTrue};
ghost use Rattle.policy_rules.specs.Numbers.{default_numbers};
ghost use Rattle.policy_rules.specs.Ranges.{is_min_length, is_min_classes, is_history};

use std::marker::Model;

/// What a policy asks of the passwords and lives of its principals, without its name.
#[derive(Clone, Copy, Debug, PartialEq, Eq)]
pub struct Numbers {
    max_life: u32,
    min_life: u32,
    min_length: u16,
    min_classes: u16,
    history: u16,
}

impl Model for Numbers {
    ghost use Rattle.policy_rules.specs.Numbers.{Numbers, AreInRange};

    ghost Value = { Numbers };

    ghost view = { λ n. record {
      max_life = n.max_life;
      min_life = n.min_life;
      min_length = n.min_length;
      min_classes = n.min_classes;
      history = n.history;
    } };

    ghost invariant = { λ n. AreInRange (record {
      max_life = n.max_life;
      min_life = n.min_life;
      min_length = n.min_length;
      min_classes = n.min_classes;
      history = n.history;
    }) };

    ghost inverse = { λ n. record {
      max_life = n.max_life;
      min_life = n.min_life;
      min_length = n.min_length;
      min_classes = n.min_classes;
      history = n.history;
    } };
}

impl Numbers {
    /// These numbers. Lives are in seconds, and a greatest life of 0 is none.
    pub fn new(
        max_life: u32,
        min_life: u32,
        min_length: u16,
        min_classes: u16,
        history: u16,
    ) -> Numbers
        requires length { IsTrue (is_min_length min_length) }
        requires classes { IsTrue (is_min_classes min_classes) }
        requires remembered { IsTrue (is_history history) }
        ensures { result ≡ record {
          max_life = max_life;
          min_life = min_life;
          min_length = min_length;
          min_classes = min_classes;
          history = history;
        } }
    {
        Numbers {
            max_life,
            min_life,
            min_length,
            min_classes,
            history,
        }
    }

    /// What goes for a principal without a policy: no greatest and no least life, passwords of at least one
    /// byte and so of one class, and a history that counts the standing password alone.
    pub fn without_policy() -> Numbers
        ensures { result ≡ default_numbers }
    {
        Numbers {
            max_life: 0,
            min_life: 0,
            min_length: 1,
            min_classes: 1,
            history: 1,
        }
    }

    /// The longest time for which a password serves, in seconds. 0 is no limit.
    pub fn max_life(&self) -> u32
        ensures { result ≡ self.now.max_life }
    {
        self.max_life
    }

    /// How long a password stands before it may be changed, in seconds.
    pub fn min_life(&self) -> u32
        ensures { result ≡ self.now.min_life }
    {
        self.min_life
    }

    /// The least length of a password, 1 to 255 bytes.
    pub fn min_length(&self) -> u16
        ensures value { result ≡ self.now.min_length }
        ensures in_range { (1 ≤ result) × (result ≤ 255) }
    {
        self.min_length
    }

    /// The least number of classes of characters in a password, 1 to 5.
    pub fn min_classes(&self) -> u16
        ensures value { result ≡ self.now.min_classes }
        ensures in_range { (1 ≤ result) × (result ≤ 5) }
    {
        self.min_classes
    }

    /// How many passwords stay behind a change of the password, 1 to 16, the standing one among them.
    pub fn history(&self) -> u16
        ensures value { result ≡ self.now.history }
        ensures in_range { (1 ≤ result) × (result ≤ 16) }
    {
        self.history
    }
}
