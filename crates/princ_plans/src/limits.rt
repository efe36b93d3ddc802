//! The restrictions under which a command is judged.

ghost use Rattle.std.specs.Prelude.{◌≡◌, IfSome, option_map};
ghost use Rattle.acl_text.specs.Limits.{IsLimits};
ghost use Rattle.princ_plans.specs.Limits.{limits_given};

use acl_text::Limits;
use command_plans::given::Given;
use princ_name::Name;

/// Those of the line that decides on an operation on a principal.
pub(crate) fn limits_given<'a>(given: &Given<'a>, letter: u8, name: &Name) -> Option<&'a Limits>
    ensures limits { option_map (λ l. l.now) result ≡ limits_given given.now letter name.now }
    ensures fit { IfSome (limits_given given.now letter name.now) IsLimits }
{
    match given.acl {
        Some(acl) => acl.decide(given.client, letter, Some(name)).limits,
        None => None,
    }
}
