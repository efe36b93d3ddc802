ghost use Rattle.std.specs.Prelude.{◌≡◌, IfOk};
ghost use Rattle.kadm_session.specs.Steps.{local_client};
ghost use Rattle.princ_name.specs.Realms.{IsRealm};

use kdb_base::MemoryOut;
use princ_name::{Name, parse_name};
use std::alloc::Global;

/// The administrator at the machine itself, in a database of this realm.
///
/// # Errors
///
/// `MemoryOut` where memory is wanted and not given.
pub fn local_client(alloc: Global, realm: &[u8]) -> Result<Name, MemoryOut>
    requires { IsRealm realm.now }
    ensures { IfOk result (λ client. client ≡ local_client realm.now) }
{
    match parse_name(alloc, b"admin/local", realm) {
        Ok(name) => Ok(name),
        Err(_) => Err(MemoryOut),
    }
}
