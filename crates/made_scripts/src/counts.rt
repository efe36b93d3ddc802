//! How many keys the rows of a database have.

ghost use Rattle.std.specs.Prelude.{◌≡◌, ◌≤◌, length};
ghost use Rattle.made_scripts.specs.Counts.{keys_in};

use princ_record::Princ;
use princ_rows::Rows;

/// The keys of a principal.
fn keys_of(princ: &Princ) -> u32
    requires { length princ.now.keys ≤ 32 }
    ensures value { result ≡ length princ.now.keys }
    ensures few { result ≤ 32 }
{
    princ.keys.as_slice().len() as u32
}

/// The keys of all principals.
pub fn count_keys(rows: &Rows) -> u32
    ensures { result ≡ keys_in rows.now.princs }
{
    let mut count = 0;
    for row in rows.princs() {
        count += keys_of(row.get());
    }
    count
}

/// The principals.
pub fn count_princs(rows: &Rows) -> u32
    ensures { result ≡ length rows.now.princs }
{
    rows.princs().len() as u32
}
